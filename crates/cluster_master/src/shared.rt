//! A master of purges that threads share.
ghost use Rattle.std.specs.Prelude.{IfOk, IfSome};
ghost use Rattle.htcp_wire.specs.Written.{Fits};
ghost use Rattle.cluster_master.specs.Answers.{IsToldOf, IsClearOf};

use crate::locked_book::{KeptEntries, LockedBook};
use crate::weight::weight_of_all;
use htcp_wire::Htcp;
use node_seats::Places;
use purge_master::{MasterBook, MasterEntry};
use purge_rules::{MasterAnswer, MasterCall, MasterFault, MemberSet, PurgeStore, Purges};
use std::alloc::{AllocError, Global};
use std::sync::{Mutex, MutexGuard, Wait};

/// A master's book under its lock.
#[derive(Drop)]
pub struct SharedMaster<S: PurgeStore> {
    locked_book: Mutex<LockedBook<S>>,
}

impl<S: PurgeStore> SharedMaster<S> {
    /// Shares a book. Its calls draw their places from this counter, and `to_keep` says what
    /// becomes of the entries of a page that is filed.
    pub fn open(
        alloc: Global,
        book: MasterBook<S>,
        places: Places,
        to_keep: KeptEntries,
    ) -> SharedMaster<S> {
        let weight = weight_of_all(book.entries());
        let locked_book = LockedBook {
            alloc,
            book,
            weight,
            kept: Vec::new(alloc),
            kept_weight: 0,
            to_keep,
            may_be_due: true,
            places,
        };
        SharedMaster {
            locked_book: Mutex::new(locked_book),
        }
    }

    /// Makes one call of the master, and enters it with its answer. The answer is of the kind of
    /// the call.
    ///
    /// Faults: those of `MasterBook::call` but `ShiftFull`, since a full page is filed first.
    /// `NoMemory` also comes where there is no memory to keep that page; nothing changes then.
    pub fn call<R: Wait>(&self, rt: &R, call: MasterCall) -> Result<MasterAnswer, MasterFault>
        ensures { IsToldOf call result }
    {
        self.locked_book.lock(rt).call(call)
    }

    /// Whether a CLR may be due. It is `false` only where none is: the master is closed, or each
    /// pending number is acknowledged by every member that it needs. This is no call, and makes no
    /// entry.
    ///
    /// It is `true` for a book that was just shared, and after each number that is given and each
    /// response that is taken, until `Due` is answered with nothing.
    pub fn may_be_due<R: Wait>(&self, rt: &R) -> bool {
        self.locked_book.lock(rt).may_be_due()
    }

    /// The CLR of a number, if it is pending: that of its purge, or that of its admission (RFC
    /// 2756, "CLR"). This is no call, and makes no entry. `AllocError` comes where there is no
    /// memory for it.
    pub fn message<R: Wait>(&self, rt: &R, number: u32) -> Result<Option<Htcp>, AllocError>
        ensures clear { IfOk result (λ message. IfSome message (IsClearOf number)) }
        ensures fits { IfOk result (λ message. IfSome message Fits) }
    {
        self.locked_book.lock(rt).message(number)
    }

    /// The members that a number needs and that have not acknowledged it; none where it is not
    /// pending. This is no call, and makes no entry.
    pub fn missing<R: Wait>(&self, rt: &R, number: u32) -> MemberSet {
        self.locked_book.lock(rt).missing(number)
    }

    /// The members that a number needs, whether it is pending or not. This is no call, and makes no
    /// entry.
    pub(crate) fn needed<R: Wait>(&self, rt: &R, number: u32) -> MemberSet {
        self.locked_book.lock(rt).needed(number)
    }

    /// The numbers of the pending purges that no member misses, ascending: each member that had not
    /// acknowledged them was taken out of the roster. This is no call, and makes no entry.
    /// `AllocError` comes where there is no memory for it.
    pub(crate) fn settled<R: Wait>(&self, rt: &R) -> Result<Vec<u32>, AllocError> {
        self.locked_book.lock(rt).settled()
    }

    /// A copy of the pending purges and the admissions, as they are at one moment, with the last
    /// number. A closed master gives it too. This is no call, and makes no entry. `AllocError`
    /// comes where there is no memory for it.
    pub fn purges<R: Wait>(&self, rt: &R) -> Result<Purges, AllocError> {
        self.locked_book.lock(rt).purges()
    }

    /// Holds the master: no call is made until what is returned is dropped.
    pub fn hold<R: Wait>(&self, rt: &R) -> HeldMaster<'_, S> {
        HeldMaster {
            locked_book: self.locked_book.lock(rt),
        }
    }

    /// Gives the book back, with the entries of the pages that are kept, which stand before its
    /// own.
    pub fn close(self) -> (MasterBook<S>, Vec<MasterEntry>) {
        self.locked_book.into_inner().into_book_and_kept()
    }
}

/// A master that is held.
#[derive(Drop)]
pub struct HeldMaster<'m, S: PurgeStore> {
    locked_book: MutexGuard<'m, LockedBook<S>>,
}

impl<S: PurgeStore> HeldMaster<'_, S> {
    /// Takes the entries since they were last taken, in their order; where no page is kept,
    /// those since the page was filed. Where there is no memory to put the open page behind the
    /// pages that are kept, its entries come with the next take.
    pub fn take_entries(&mut self) -> Vec<MasterEntry> {
        self.locked_book.take_entries()
    }

    /// Whether entries were dropped, or none is kept: then what is taken is not all that there was.
    pub fn has_forgotten(&self) -> bool {
        self.locked_book.has_forgotten()
    }
}
