//! Calls of a store of purges, over any store.
ghost use Rattle.std.specs.Prelude.{◌≡◌, ◌<◌, false, IsTrue};
ghost use Rattle.purge_rules.specs.Purges.{is_admitted, pending_count};
ghost use Rattle.purge_rules.specs.Store.{Misses};

use purge_rules::{Admission, PurgeFault, PurgeStore, Purges};
use std::alloc::Global;
use std::test::Fail;
use url_key::Key;

/// Whether the purge of the number is pending, and the member has not acknowledged it.
fn is_missed(purges: &Purges, number: u32, member: u8) -> bool
    ensures { IsTrue result → Misses purges.now number member }
{
    match purges.find(number) {
        Some(purge) => !purge.marked.has(member),
        None => false,
    }
}

/// Whether a number may be given: it is above the last one, and fewer than 1,024 are pending.
fn may_give(purges: &Purges, number: u32) -> bool
    ensures above { IsTrue result → purges.now.last < number }
    ensures room { IsTrue result → pending_count purges.now < 1024 }
{
    purges.last() < number && !purges.is_full()
}

/// Whether the member may be admitted under this number: it has no admission.
fn may_admit(purges: &Purges, number: u32, member: u8) -> bool
    ensures above { IsTrue result → purges.now.last < number }
    ensures room { IsTrue result → pending_count purges.now < 1024 }
    ensures new { IsTrue result → is_admitted purges.now member ≡ false }
{
    may_give(purges, number) && !purges.is_admitted(member)
}

/// Adds a purge of the key, under a number above the last one, where fewer than 1,024 are pending.
fn add_key<P: PurgeStore>(
    store: &mut P,
    alloc: Global,
    number: u32,
    key: &Key,
) -> Result<Result<(), PurgeFault>, Fail> {
    match store.load(alloc) {
        Ok(purges) if may_give(&purges, number) => Ok(store.add(alloc, number, key)),
        Ok(_) => Err("a number above the last one, and room".into()),
        Err(fault) => Ok(Err(fault)),
    }
}

/// The same of a URL.
pub(crate) fn add<P: PurgeStore>(
    store: &mut P,
    alloc: Global,
    number: u32,
    url: &str,
) -> Result<Result<(), PurgeFault>, Fail> {
    add_key(store, alloc, number, &Key::read(alloc, url.as_bytes())?)
}

/// Admits a member that has no admission, under a number above the last one.
pub(crate) fn admit<P: PurgeStore>(
    store: &mut P,
    alloc: Global,
    number: u32,
    member: u8,
) -> Result<Result<(), PurgeFault>, Fail> {
    if member < 1 || member > 16 {
        return Err("a member of 1 to 16".into());
    }
    match store.load(alloc) {
        Ok(purges) if may_admit(&purges, number, member) => Ok(store.admit(alloc, number, member)),
        Ok(_) => Err("a member without an admission, a number above the last one, and room".into()),
        Err(fault) => Ok(Err(fault)),
    }
}

/// Marks a member that has not acknowledged the pending purge.
pub(crate) fn mark<P: PurgeStore>(
    store: &mut P,
    alloc: Global,
    number: u32,
    member: u8,
) -> Result<Result<(), PurgeFault>, Fail> {
    if member < 1 || member > 16 {
        return Err("a member of 1 to 16".into());
    }
    match store.load(alloc) {
        Ok(purges) if is_missed(&purges, number, member) => Ok(store.mark(alloc, number, member)),
        Ok(_) => Err("a purge that misses the member".into()),
        Err(fault) => Ok(Err(fault)),
    }
}

/// What the store holds.
pub(crate) fn loaded<P: PurgeStore>(store: &mut P, alloc: Global) -> Result<Purges, Fail> {
    match store.load(alloc) {
        Ok(purges) => Ok(purges),
        Err(fault) => Err(fault.name().into()),
    }
}

/// The last number, and how many purges are pending.
pub(crate) fn counts<P: PurgeStore>(store: &mut P, alloc: Global) -> Result<(u32, usize), Fail> {
    let purges = loaded(store, alloc)?;
    Ok((purges.last(), purges.len()))
}

/// Whether the purge is pending with this URL, marked by the first member and not by the second.
pub(crate) fn is_marked<P: PurgeStore>(
    store: &mut P,
    alloc: Global,
    number: u32,
    url: &str,
    by: u8,
    not_by: u8,
) -> Result<bool, Fail> {
    let purges = loaded(store, alloc)?;
    let Some(purge) = purges.find(number) else {
        return Ok(false);
    };
    Ok(purge.key.text() == url.as_bytes() && purge.marked.has(by) && !purge.marked.has(not_by))
}

/// The admission at this place, in the order of their numbers.
pub(crate) fn admission_at(purges: &Purges, place: usize) -> Option<Admission> {
    purges.admissions().get(place).copied()
}
