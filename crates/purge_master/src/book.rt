//! A master with a book of its calls.
ghost use Rattle.std.specs.Prelude.{◌≡◌, ◌⊎◌, ◌<◌, ◌≤◌, [], length, IfOk, IfSome, Err};
ghost use Rattle.purge_rules.specs.declared.fault.MasterFault.TheVariants as faults;
ghost use Rattle.htcp_wire.specs.Written.{Fits};
ghost use Rattle.purge_rules.specs.Clear.{message_of};
ghost use Rattle.purge_master.specs.Store.{witness};
ghost use Rattle.purge_master.specs.Book.{IsEntered};

use crate::Master;
use htcp_wire::Htcp;
use purge_rules::{MasterAnswer, MasterCall, MasterFault, Nodes, PurgeStore, Purges};
use std::alloc::{AllocError, Global};
use std::marker::Model;
use std::mem::replace;

/// The most entries of a book.
pub const MOST_ENTRIES: usize = 4096;

/// An entry of the book: a call, and what it returned.
#[derive(Debug)]
pub struct MasterEntry {
    /// The place of the call, as its caller counts places.
    pub place: u64,
    /// The call.
    pub call: MasterCall,
    /// What the call returned, an answer or a fault.
    pub answer: Result<MasterAnswer, MasterFault>,
}

impl Drop for MasterEntry {
    fn drop(self) {
        let MasterEntry {
            place: _,
            call: _,
            answer: _,
        } = self;
    }
}

/// A master with a book: each call is entered with its place and what it returned, in order.
///
/// A contract sees the master and the entries, at most 4,096.
pub struct MasterBook<S: PurgeStore> {
    alloc: Global,
    master: Master<S>,
    entries: Vec<MasterEntry>,
}

impl<S: PurgeStore + Drop> Drop for MasterBook<S> {
    fn drop(self) {
        let MasterBook {
            alloc: _,
            master: _,
            entries: _,
        } = self;
    }
}

impl<S: PurgeStore> Model for MasterBook<S> {
    ghost use Rattle.std.specs.Prelude.{◌≤◌, length};
    ghost use Rattle.std.specs.Coded.{codes};
    ghost use Rattle.purge_master.specs.Book.{BookView};

    ghost Value = { BookView S };

    ghost coded = { Prim.hlevel (codes) };

    ghost view = { λ b. record { master = b.master; entries = b.entries.items } };

    ghost invariant = { λ b. length b.entries.items ≤ 4096 };
}

impl<S: PurgeStore> MasterBook<S> {
    /// A book of this master, without entries. Allocates nothing.
    pub fn open(master: Master<S>) -> MasterBook<S>
        ensures { result ≡ record { master = master; entries = [] } }
    {
        let alloc = master.alloc;
        MasterBook {
            alloc,
            master,
            entries: Vec::new(alloc),
        }
    }

    /// Makes the call of the master, and enters it with this place and what it returned.
    ///
    /// Errors: `ShiftFull` before anything else, if there are 4,096 entries; then `NoMemory`, if
    /// the entry cannot be allocated. Neither is entered, and nothing changes. Any other error is
    /// the master's (`Master::issue`, `admit`, `acknowledge`, `due`), also its own `NoMemory`; it
    /// is entered.
    pub fn call(&mut self, place: u64, call: MasterCall) -> Result<MasterAnswer, MasterFault>
        ensures full { 4096 ≤ length self.old.entries → (result ≡ Err faults.ShiftFull)
            × (self.new ≡ self.old) }
        ensures entered { length self.old.entries < 4096 → (result ≡ Err faults.NoMemory)
            × (self.new ≡ self.old)
            ⊎ IsEntered (witness (S.is_honest self.old.master.store)
            (S.may_find self.old.master.store) (S.failed self.old.master.store))
            (witness (S.is_honest self.new.master.store) (S.may_find self.new.master.store)
            (S.failed self.new.master.store))
            self.old self.new place call result }
    {
        if self.entries.len() >= MOST_ENTRIES {
            return Err(MasterFault::ShiftFull);
        }
        self.entries.reserve(1)?;
        let (told, entered) = self.master.outcome(&call);
        self.entries.push_reserved(MasterEntry {
            place,
            call,
            answer: entered,
        });
        told
    }

    /// The entries since the book was opened, or since they were last taken.
    pub fn entries(&self) -> &[MasterEntry]
        ensures value { result.now ≡ self.now.entries }
        ensures most { length self.now.entries ≤ 4096 }
    {
        self.entries.as_slice()
    }

    /// Takes all entries out of the book. Allocates nothing.
    pub fn take_entries(&mut self) -> Vec<MasterEntry>
        ensures taken { result.items ≡ self.old.entries }
        ensures left { self.new ≡ record { master = self.old.master; entries = [] } }
    {
        replace(&mut self.entries, Vec::new(self.alloc))
    }

    /// The nodes of the roster, as `Master::nodes` gives them. This is no call, and is not entered.
    pub fn nodes(&self) -> &Nodes
        ensures { result.now ≡ self.now.master.nodes }
    {
        self.master.nodes()
    }

    /// The last number that was given, the pending purges and the admissions, as `Master::purges`
    /// gives them. This is no call, and is not entered.
    pub fn purges(&self) -> &Purges
        ensures { result.now ≡ self.now.master.state.purges }
    {
        self.master.purges()
    }

    /// The CLR of the pending number, as `Master::message` gives it. This is no call, and is not
    /// entered.
    pub fn message(&self, number: u32) -> Result<Option<Htcp>, AllocError>
        ensures value { IfOk result (λ message.
            message ≡ message_of self.now.master.state.purges number) }
        ensures fits { IfOk result (λ message. IfSome message Fits) }
    {
        self.master.message(number)
    }

    /// The master. The entries are dropped.
    pub fn into_master(self) -> Master<S>
        ensures { result ≡ self.master }
    {
        let MasterBook {
            alloc: _,
            master: kept,
            entries: _,
        } = self;
        kept
    }
}
