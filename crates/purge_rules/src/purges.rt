//! The pending purges and the admissions, in memory, with the last number that was given.
ghost use Rattle.std.specs.Prelude.{◌≡◌, ℕ, ◌<◌, ◌≤◌, ◌==◌, nat_le, not, false, List, length, map};
ghost use Rattle.std.specs.Prelude.{option_map, find, filter, MatchOption, IfOk, OnOk, OnErr};
ghost use Rattle.std.specs.List.{list_any};
ghost use Rattle.purge_rules.specs.Purges.{PurgeList, AreNumbered, no_purges, pending_at};
ghost use Rattle.purge_rules.specs.Purges.{admission_at, is_admitted, pending_count};
ghost use Rattle.purge_rules.specs.Purges.{with_purge, with_admission, with_mark, with_done};
ghost use Rattle.purge_rules.specs.Purges.{ended_at};
ghost use Rattle.purge_rules.specs.Needed.{admission_in};
ghost use Rattle.purge_rules.specs.Places.{IsPlaceOf, IsAbsent, CameBy, CameByAdmission, given_to};
ghost use Rattle.purge_rules.specs.Places.{with_admissions, without_purge, with_ended};

use crate::MemberSet;
use std::alloc::{AllocError, Global};
use std::marker::Model;
use url_key::Key;

/// The most purges and admissions that may be pending at a time.
pub const MOST_PENDING: usize = 1024;

/// The greatest number that a purge or an admission may have, 2^32 - 1.
pub const LAST_NUMBER: u32 = 4294967295;

/// A pending purge.
#[derive(Debug, Drop)]
pub struct Purge {
    /// Its number, 1 to 4294967295; also the TRANS-ID of its CLR.
    pub number: u32,
    /// The key of the URL that is purged.
    pub key: Key,
    /// The members that have acknowledged it.
    pub marked: MemberSet,
}

/// An admission of a joining node, which takes part in purges of greater numbers.
#[derive(Clone, Copy, Debug, PartialEq, Eq)]
pub struct Admission {
    /// The node's id, 1 to 16.
    pub member: u8,
    /// Its number, 1 to 4294967295; also the TRANS-ID of its CLR.
    pub number: u32,
    /// Whether the node has acknowledged it. Until then it is pending.
    pub is_done: bool,
}

/// The last number that was given, the pending purges, and all admissions.
///
/// A contract sees these three (`PurgeList`). The numbers of the pending purges ascend, and so do
/// those of the admissions. They are at least 1 and at most the last number, no number is of both,
/// and no two admissions are of one node (`AreNumbered`).
#[derive(Debug)]
pub struct Purges {
    // the last number that was given, 0 if none was
    last: u32,
    // by number
    pending: Vec<Purge>,
    // pending or done, by number
    admissions: Vec<Admission>,
}

impl Drop for Purges {
    fn drop(self) {
        let Purges {
            last: _,
            pending: _,
            admissions: _,
        } = self;
    }
}

impl Model for Purges {
    ghost use Rattle.purge_rules.specs.Purges.{PurgeList, AreNumbered};

    ghost Value = { PurgeList };

    ghost view = { λ p. record {
      last = p.last;
      pending = p.pending.items;
      admissions = p.admissions.items;
    } };

    ghost invariant = { λ p. AreNumbered record {
      last = p.last;
      pending = p.pending.items;
      admissions = p.admissions.items;
    } };
}

impl Purge {
    /// A second copy of the purge.
    pub fn copy(&self, alloc: Global) -> Result<Purge, AllocError>
        ensures { IfOk result (λ copy. copy ≡ self.now) }
    {
        Ok(Purge {
            number: self.number,
            key: self.key.copy(alloc)?,
            marked: self.marked,
        })
    }
}

impl Purges {
    /// No number was given. Allocates nothing.
    pub fn new(alloc: Global) -> Purges
        ensures { result ≡ no_purges }
    {
        Purges {
            last: 0,
            pending: Vec::new(alloc),
            admissions: Vec::new(alloc),
        }
    }

    /// The last number that was given, or 0 if none was.
    pub fn last(&self) -> u32
        ensures value { result ≡ self.now.last }
        ensures numbered { AreNumbered self.now }
    {
        self.last
    }

    /// How many purges are pending.
    pub fn len(&self) -> usize
        ensures { result ≡ length self.now.pending }
    {
        self.pending.len()
    }

    /// Whether no purge is pending.
    pub fn is_empty(&self) -> bool
        ensures { result ≡ (length self.now.pending == 0) }
    {
        self.pending.is_empty()
    }

    /// Whether 1,024 numbers or more are pending, of purges and of admissions.
    pub fn is_full(&self) -> bool
        ensures value { result ≡ nat_le 1024 (pending_count self.now) }
        ensures room { result ≡ false → pending_count self.now < 1024 }
    {
        let pending = self.pending.len();
        pending >= MOST_PENDING || count_pending(&self.admissions) >= MOST_PENDING - pending
    }

    /// The pending purges, by number.
    pub fn pending(&self) -> &[Purge]
        ensures value { result.now ≡ self.now.pending }
        ensures numbered { AreNumbered self.now }
    {
        self.pending.as_slice()
    }

    /// All admissions, pending or done, by number.
    pub fn admissions(&self) -> &[Admission]
        ensures value { result.now ≡ self.now.admissions }
        ensures numbered { AreNumbered self.now }
    {
        self.admissions.as_slice()
    }

    /// The admission with this number, pending or done.
    pub fn admission_at(&self, number: u32) -> Option<&Admission>
        ensures { option_map (λ a. a.now) result ≡ admission_at self.now number }
    {
        admission_in(self.admissions(), number)
    }

    /// Whether the node with this id has an admission, pending or done.
    pub fn is_admitted(&self, id: u8) -> bool
        ensures { result ≡ is_admitted self.now id }
    {
        is_admitted_in(self.admissions(), id)
    }

    /// The index of the pending purge with this number, by binary search.
    fn place_of(&self, number: u32) -> Option<usize>
        ensures numbered { AreNumbered self.now }
        ensures place { MatchOption result (IsAbsent self.now.pending number)
            (IsPlaceOf self.now.pending number) }
    {
        match self
            .pending
            .binary_search_by_key(&number, |purge| purge.number)
        {
            Ok(place) => Some(place),
            Err(_) => None,
        }
    }

    /// The pending purge with this number, by binary search.
    pub fn find(&self, number: u32) -> Option<&Purge>
        ensures { option_map (λ p. p.now) result ≡ pending_at self.now number }
    {
        let place = self.place_of(number)?;
        Some(&self.pending[place])
    }

    /// A second copy of the purges.
    pub fn copy(&self, alloc: Global) -> Result<Purges, AllocError>
        ensures { IfOk result (λ copy. copy ≡ self.now) }
    {
        let mut pending = Vec::with_capacity(alloc, self.pending.len())?;
        for purge in &self.pending {
            pending.push(purge.copy(alloc)?)?;
        }
        Ok(Purges {
            last: self.last,
            pending,
            admissions: Vec::from_slice(alloc, self.admissions.as_slice())?,
        })
    }

    /// Adds a pending purge of the key under this number, which is above the last one and becomes
    /// it. If an allocation fails, nothing changes.
    pub fn add(&mut self, alloc: Global, number: u32, key: &Key) -> Result<(), AllocError>
        requires { self.old.last < number }
        ensures ok { OnOk result (self.new ≡ with_purge self.old number key.now) }
        ensures err { OnErr result (self.new ≡ self.old) }
    {
        let purge = Purge {
            number,
            key: key.copy(alloc)?,
            marked: MemberSet::new(),
        };
        self.pending.push(purge)?;
        self.last = number;
        Ok(())
    }

    /// Adds an admission of the node, of an id of 1 to 16, under this number, which is above the
    /// last one and becomes it. Before, the node has none. If an allocation fails, nothing changes.
    pub fn admit(&mut self, number: u32, id: u8) -> Result<(), AllocError>
        requires above { self.old.last < number }
        requires id { (1 ≤ id) × (id ≤ 16) }
        requires new { is_admitted self.old id ≡ false }
        ensures ok { OnOk result (self.new ≡ with_admission self.old number id) }
        ensures err { OnErr result (self.new ≡ self.old) }
    {
        self.admissions.push(Admission {
            member: id,
            number,
            is_done: false,
        })?;
        self.last = number;
        Ok(())
    }

    /// Sets the last number, which does not fall. A store needs it to load purges of which the last
    /// are done. Allocates nothing.
    pub fn give(&mut self, given: u32)
        requires { self.old.last ≤ given }
        ensures { self.new ≡ given_to self.old given }
    {
        self.last = given;
    }

    /// Sets the admissions. A store needs it to load them, once it has added the purges and set the
    /// last number. Allocates nothing.
    pub fn restore(&mut self, admissions: Vec<Admission>)
        requires { AreNumbered (with_admissions self.old admissions.items) }
        ensures { self.new ≡ with_admissions self.old admissions.items }
    {
        self.admissions = admissions;
    }

    /// Undoes the latest `add`; the last number was this one before it. Allocates nothing.
    pub fn take_back(&mut self, last: u32)
        requires { CameBy self.old last }
        ensures { (before : PurgeList) (number : ℕ) (key : List ℕ) →
            self.old ≡ with_purge before number key → last ≡ before.last → self.new ≡ before }
    {
        let _ = self.pending.pop();
        self.last = last;
    }

    /// Undoes the latest `admit`; the last number was this one before it. Allocates nothing.
    pub fn take_admission_back(&mut self, last: u32)
        requires { CameByAdmission self.old last }
        ensures { (before : PurgeList) (number id : ℕ) →
            self.old ≡ with_admission before number id → last ≡ before.last → self.new ≡ before }
    {
        let _ = self.admissions.pop();
        self.last = last;
    }

    /// Marks the member, of an id of 1 to 16, as having acknowledged the pending purge with this
    /// number. If no such purge is pending, nothing changes. Binary search; allocates nothing.
    pub fn mark(&mut self, number: u32, member: u8)
        requires { (1 ≤ member) × (member ≤ 16) }
        ensures { self.new ≡ with_mark self.old number member }
    {
        if let Some(place) = self.place_of(number) {
            let purge = &mut self.pending[place];
            purge.marked.insert(member);
        }
    }

    /// Ends this number: takes out its pending purge, or sets its admission to done. If neither has
    /// the number, nothing changes. Binary search; allocates nothing.
    pub fn finish(&mut self, number: u32)
        ensures { self.new ≡ with_done self.old number }
    {
        self.take_out(number);
        self.end_admission(number);
    }

    /// Takes out the pending purge with this number, if there is one.
    fn take_out(&mut self, number: u32)
        ensures { self.new ≡ without_purge self.old number }
    {
        if let Some(place) = self.place_of(number) {
            let _ = self.pending.remove(place);
        }
    }

    /// Sets the admission with this number, if there is one, to done.
    fn end_admission(&mut self, number: u32)
        ensures { self.new ≡ with_ended self.old number }
    {
        end_in(&mut self.admissions, number);
    }
}

/// The admission with this number.
fn admission_in(admissions: &[Admission], number: u32) -> Option<&Admission>
    ensures { option_map (λ a. a.now) result ≡ admission_in admissions.now number }
{
    admissions
        .iter()
        .find(|admission| admission.number == number)
}

/// Whether one of these admissions is of the node with this id.
fn is_admitted_in(admissions: &[Admission], id: u8) -> bool
    ensures { result ≡ list_any (λ a. a.member == id) admissions.now }
{
    admissions.iter().any(|admission| admission.member == id)
}

/// How many of these admissions are pending.
fn count_pending(admissions: &[Admission]) -> usize
    ensures { result ≡ length (filter (λ a. not a.is_done) admissions.now) }
{
    let mut count = 0;
    for admission in admissions {
        if !admission.is_done {
            count += 1;
        }
    }
    count
}

/// Sets those of these admissions that have this number to done.
fn end_in(admissions: &mut Vec<Admission>, number: u32)
    ensures { admissions.new.items ≡ ended_at number admissions.old.items }
{
    for place in 0..admissions.len() {
        if admissions[place].number == number {
            admissions[place].is_done = true;
        }
    }
}
