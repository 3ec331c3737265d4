//! Reads the rows of a master's file: purges by ascending number, then acknowledgements by
//! ascending rowid, then admissions by ascending number. So one pass sees a number, a rowid or an
//! acknowledgement that stands twice.
ghost use Rattle.std.specs.Prelude.{◌≡◌, ◌≢◌, ◌⊎◌, ◌≤◌, ◌<◌, ◌==◌, ◌++◌, ◌∷◌, [], ℕ, ℤ, pos, List};
ghost use Rattle.std.specs.Prelude.{false, None, Some, Err, IsTrue, IfOk, IfSome, OnOk, OnErr};
ghost use Rattle.std.specs.List.{list_any};
ghost use Rattle.sqlite.specs.declared.types.Value.TheVariants.{Int, Text as Words};
ghost use Rattle.sqlite_value.specs.Order.{column};
ghost use Rattle.sqlite_trees.specs.Tree.{rowid};
ghost use Rattle.sqlite_trees.specs.Objects.{number_in};
ghost use Rattle.url_key.specs.Key.{IsKey};
ghost use Rattle.purge_rules.specs.Purges.{PurgeList, no_purges, with_purge, with_mark};
ghost use Rattle.purge_rules.specs.Places.{with_admissions};
ghost use Rattle.purge_rules.specs.Store.{Misses};
ghost use Rattle.purge_records.specs.Tables.{number_of, url_of, ack_number, ack_member};
ghost use Rattle.purge_records.specs.Tables.{admission_in, admitted_number};
ghost use Rattle.purge_records.specs.Rows.{IsPurgeRow, IsAbove, IsAckRow, IsAdmissionRow};
ghost use Rattle.purge_records.specs.Rows.{IsReadFault, Adds, Admits, Follows, Marks};

use purge_rules::{Admission, PurgeFault, Purges};
use sqlite::Row;
use sqlite_value::value::ValueRef;
use std::alloc::Global;
use url_key::{Key, KeyFault};

/// The key of a text. A text that is not its own key is `BadTable`.
fn own_key(alloc: Global, text: &[u8]) -> Result<Key, PurgeFault>
    ensures ok { IfOk result (λ key. (key ≡ text.now) × IsKey text.now) }
    ensures bad { result ≡ Err PurgeFault.BadTable → ¬ IsKey text.now }
    ensures named { IsReadFault result }
{
    match Key::read(alloc, text) {
        Ok(key) if key.text() == text => Ok(key),
        Err(KeyFault::NoMemory) => Err(PurgeFault::NoMemory),
        _ => Err(PurgeFault::BadTable),
    }
}

/// The key in the column `url`, the third of the query.
fn key_in(alloc: Global, row: &Row) -> Result<Key, PurgeFault>
    ensures ok { IfOk result (λ key. (column row.now 2 ≡ Words key) × IsKey key) }
    ensures bad { result ≡ Err PurgeFault.BadTable → (url : List ℕ) → IsKey url →
        column row.now 2 ≢ Words url }
    ensures named { IsReadFault result }
{
    match row.get_ref(2) {
        Ok(ValueRef::Text(text)) => own_key(alloc, text),
        _ => Err(PurgeFault::BadTable),
    }
}

/// The number in this column, if it is one of 0 to 4294967295.
pub(crate) fn number_in(row: &Row, at: usize) -> Option<u32>
    ensures some { IfSome result (λ number. column row.now at ≡ Int (pos number)) }
    ensures none { result ≡ None → (number : ℕ) → number ≤ 4294967295 →
        column row.now at ≢ Int (pos number) }
{
    match row.get_ref(at) {
        Ok(ValueRef::Int(number)) => u32::try_from(number).ok(),
        _ => None,
    }
}

/// Adds the purge of one row. A row that is no purge, or whose number is not above each before it,
/// is `BadTable`.
fn add_row(purges: &mut Purges, alloc: Global, row: &Row) -> Result<(), PurgeFault>
    ensures ok { OnOk result (IsPurgeRow row.now × (purges.old.last < number_of row.now)
        × (purges.new ≡ with_purge purges.old (number_of row.now) (url_of row.now))) }
    ensures bad { result ≡ Err PurgeFault.BadTable → IsPurgeRow row.now →
        ¬ (purges.old.last < number_of row.now) }
    ensures named { IsReadFault result }
{
    let Some(number) = number_in(row, 0) else {
        return Err(PurgeFault::BadTable);
    };
    let key = key_in(alloc, row)?;
    if number <= purges.last() {
        return Err(PurgeFault::BadTable);
    }
    purges.add(alloc, number, &key)?;
    Ok(())
}

/// The purges of all rows, each added in turn.
pub(crate) fn purges_of(alloc: Global, rows: &[Row]) -> Result<Purges, PurgeFault>
    ensures ok { IfOk result (λ purges. Adds no_purges rows.now purges) }
    ensures bad { result ≡ Err PurgeFault.BadTable → (all : PurgeList) →
        ¬ Adds no_purges rows.now all }
    ensures named { IsReadFault result }
{
    let mut purges = Purges::new(alloc);
    for row in rows {
        add_row(&mut purges, alloc, row)?;
    }
    Ok(purges)
}

/// Whether the purge with this number is pending, and the member has not acknowledged it.
pub(crate) fn is_missed(purges: &Purges, number: u32, member: u8) -> bool
    ensures yes { IsTrue result → Misses purges.now number member }
    ensures no { result ≡ false → ¬ Misses purges.now number member }
{
    match purges.find(number) {
        Some(purge) => !purge.marked.has(member),
        None => false,
    }
}

/// The member in this column, if it is one of 1 to 16.
fn member_in(row: &Row, at: usize) -> Option<u8>
    ensures some { IfSome result (λ member. (column row.now at ≡ Int (pos member)) × (1 ≤ member)
        × (member ≤ 16)) }
    ensures none { result ≡ None → (member : ℕ) → 1 ≤ member → member ≤ 16 →
        column row.now at ≢ Int (pos member) }
{
    let Ok(ValueRef::Int(member)) = row.get_ref(at) else {
        return None;
    };
    if member < 1 || member > 16 {
        return None;
    }
    u8::try_from(member).ok()
}

/// The rowid in the first column, if it is above the one before it.
fn next_id(row: &Row, low: Option<i64>) -> Option<i64>
    ensures some { IfSome result (λ id. (rowid row.now ≡ Int id) × IsAbove low row.now) }
    ensures none { result ≡ None → IsAbove low row.now → (id : ℤ) → rowid row.now ≢ Int id }
{
    let Ok(ValueRef::Int(id)) = row.get_ref(0) else {
        return None;
    };
    match low {
        Some(low) if id <= low => None,
        _ => Some(id),
    }
}

/// Marks the member of one row, and returns its rowid. `BadTable` for a row that is no
/// acknowledgement of a pending purge, or stands twice.
fn mark_row(purges: &mut Purges, low: Option<i64>, row: &Row) -> Result<i64, PurgeFault>
    ensures ok { IfOk result (λ id. (rowid row.now ≡ Int id) × IsAbove low row.now
        × IsAckRow row.now × Misses purges.old (ack_number row.now) (ack_member row.now)
        × (purges.new ≡ with_mark purges.old (ack_number row.now) (ack_member row.now))) }
    ensures bad { OnErr result ((id : ℤ) → rowid row.now ≡ Int id → IsAbove low row.now →
        IsAckRow row.now → ¬ Misses purges.old (ack_number row.now) (ack_member row.now)) }
    ensures named { result ≢ Err PurgeFault.StoreFault }
{
    let Some(id) = next_id(row, low) else {
        return Err(PurgeFault::BadTable);
    };
    let (Some(number), Some(member)) = (number_in(row, 1), member_in(row, 2)) else {
        return Err(PurgeFault::BadTable);
    };
    if !is_missed(purges, number, member) {
        return Err(PurgeFault::BadTable);
    }
    purges.mark(number, member);
    Ok(id)
}

/// Marks the members of all rows, whose rowids ascend.
pub(crate) fn mark_all(purges: &mut Purges, rows: &[Row]) -> Result<(), PurgeFault>
    ensures ok { OnOk result (Marks None purges.old rows.now purges.new) }
    ensures bad { OnErr result ((all : PurgeList) → ¬ Marks None purges.old rows.now all) }
{
    let mut low = None;
    for row in rows {
        low = Some(mark_row(purges, low, row)?);
    }
    Ok(())
}

/// Whether the admission of this row is done, if the fourth column is 0 or 1.
fn done_in(row: &Row) -> Option<bool>
    ensures some { IfSome result (λ is_done.
        ((column row.now 3 ≡ Int (pos 0)) ⊎ (column row.now 3 ≡ Int (pos 1)))
        × (is_done ≡ (number_in (column row.now 3) == 1))) }
    ensures none { result ≡ None → (column row.now 3 ≢ Int (pos 0))
        × (column row.now 3 ≢ Int (pos 1)) }
{
    match row.get_ref(3) {
        Ok(ValueRef::Int(0)) => Some(false),
        Ok(ValueRef::Int(1)) => Some(true),
        _ => None,
    }
}

/// The admission of a row, if it is one.
fn admission_of(row: &Row) -> Option<Admission>
    ensures some { IfSome result (λ admission. IsAdmissionRow row.now
        × (admission ≡ admission_in row.now)) }
    ensures none { result ≡ None → admitted_number row.now ≤ 4294967295 →
        ¬ IsAdmissionRow row.now }
{
    let member = member_in(row, 0)?;
    let number = number_in(row, 2)?;
    let is_done = done_in(row)?;
    Some(Admission {
        member,
        number,
        is_done,
    })
}

/// Whether one of these admissions is of the member.
fn has_member(admissions: &[Admission], member: u8) -> bool
    ensures { result ≡ list_any (λ a. a.member == member) admissions.now }
{
    admissions.iter().any(|a| a.member == member)
}

/// Whether the admission may follow these: its number is at most the last one and of no pending
/// purge, and its member has none.
fn follows(purges: &Purges, last: u32, admissions: &[Admission], next: &Admission) -> bool
    requires { last ≡ purges.now.last }
    ensures yes { IsTrue result → Follows (with_admissions purges.now admissions.now) next.now }
    ensures no { result ≡ false → ¬ Follows (with_admissions purges.now admissions.now) next.now }
{
    next.number <= last
        && !has_member(admissions, next.member)
        && purges.find(next.number).is_none()
}

/// Adds the admission of one row, and returns its number, which is above the one before it.
/// `BadTable` for a row that is no admission, or may not follow these.
fn admit_row(
    purges: &Purges,
    last: u32,
    admissions: &mut Vec<Admission>,
    low: u32,
    row: &Row,
) -> Result<u32, PurgeFault>
    requires { last ≡ purges.now.last }
    ensures ok { IfOk result (λ number. IsAdmissionRow row.now × (low < admitted_number row.now)
        × Follows (with_admissions purges.now admissions.old.items) (admission_in row.now)
        × (number ≡ admitted_number row.now)
        × (admissions.new.items ≡ admissions.old.items ++ admission_in row.now ∷ [])) }
    ensures bad { result ≡ Err PurgeFault.BadTable → IsAdmissionRow row.now →
        low < admitted_number row.now →
        ¬ Follows (with_admissions purges.now admissions.old.items) (admission_in row.now) }
    ensures named { IsReadFault result }
{
    let Some(next) = admission_of(row) else {
        return Err(PurgeFault::BadTable);
    };
    if next.number <= low || !follows(purges, last, admissions, &next) {
        return Err(PurgeFault::BadTable);
    }
    match admissions.push(next) {
        Ok(()) => Ok(next.number),
        Err(_) => Err(PurgeFault::NoMemory),
    }
}

/// The admissions of all rows, whose numbers ascend.
fn admissions_of(
    alloc: Global,
    purges: &Purges,
    last: u32,
    rows: &[Row],
) -> Result<Vec<Admission>, PurgeFault>
    requires { last ≡ purges.now.last }
    ensures ok { IfOk result (λ admissions. Admits 0 (with_admissions purges.now []) rows.now
        (with_admissions purges.now admissions.items)) }
    ensures bad { result ≡ Err PurgeFault.BadTable → (all : PurgeList) →
        ¬ Admits 0 (with_admissions purges.now []) rows.now all }
    ensures named { IsReadFault result }
{
    let mut admissions = Vec::new(alloc);
    let mut low = 0;
    for row in rows {
        low = admit_row(purges, last, &mut admissions, low, row)?;
    }
    Ok(admissions)
}

/// Sets the admissions to those of all rows, whose numbers ascend.
pub(crate) fn admit_all(purges: &mut Purges, alloc: Global, rows: &[Row]) -> Result<(), PurgeFault>
    ensures ok { OnOk result (Admits 0 (with_admissions purges.old []) rows.now purges.new) }
    ensures bad { result ≡ Err PurgeFault.BadTable → (all : PurgeList) →
        ¬ Admits 0 (with_admissions purges.old []) rows.now all }
    ensures named { IsReadFault result }
{
    let last = purges.last();
    let admissions = admissions_of(alloc, purges, last, rows)?;
    purges.restore(admissions);
    Ok(())
}
