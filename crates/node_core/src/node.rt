ghost use Rattle.std.specs.Prelude.{◌≡◌, ◌==◌, find, option_map, OnOk, OnErr};
ghost use Rattle.floor_rules.specs.Floors.{new_base};
ghost use Rattle.object_store.specs.Listed.{without_all_below};
ghost use Rattle.node_rules.specs.State.{fetch_serial, closed_node, with_copies, setting};
ghost use Rattle.node_rules.specs.State.{is_outside};
ghost use Rattle.node_core.specs.View.{IsSameNode, IsTied};

use floor_rules::{FloorStore, Floors};
use node_rules::Pending;
use node_waiting::PendingList;
use object_store::Store;
use roster::Roster;
use std::alloc::{AllocError, Global};
use std::marker::Model;
use url_key::Key;

/// A node of the hierarchy, over a store of its floors. `T` is the type of the tags of its copies.
///
/// A contract sees its roster, its id, its state and the store.
pub struct Node<T, S: FloorStore> {
    pub(crate) alloc: Global,
    pub(crate) roster: Roster,
    pub(crate) id: u8,
    pub(crate) store: S,
    pub(crate) floors: Floors,
    pub(crate) copies: Store<T>,
    pub(crate) pending: PendingList<T>,
    pub(crate) next: u32,
    pub(crate) closed: bool,
}

impl<T: Drop, S: FloorStore + Drop> Drop for Node<T, S> {
    fn drop(self) {
        let Node {
            alloc: _,
            roster: _,
            id: _,
            store: _,
            floors: _,
            copies: _,
            pending: _,
            next: _,
            closed: _,
        } = self;
    }
}

impl<T: Drop, S: FloorStore> Node<T, S> {
    /// The store alone.
    pub(crate) fn into_store(self) -> S
        ensures { result ≡ self.store }
    {
        let Node {
            alloc: _,
            roster: _,
            id: _,
            store,
            floors: _,
            copies: _,
            pending: _,
            next: _,
            closed: _,
        } = self;
        store
    }
}

impl<T, S: FloorStore> Model for Node<T, S> {
    ghost use Rattle.node_core.specs.View.{NodeText, IsNode, IsTied};
    ghost use Rattle.std.specs.Coded.{codes, coded_list, coded_ℕ};
    ghost use Rattle.std.specs.FinMap.{code as map_code};
    ghost use Rattle.std.specs.Ordering.{nat_cmp};
    ghost use Rattle.std.specs.Cmp.Lexicographic.{slice_cmp};

    ghost Value = { NodeText T S };

    ghost coded = { Prim.hlevel (
      codes,
      map_code {R = slice_cmp nat_cmp} (coded_list coded_ℕ) coded_ℕ,
    ) };

    ghost view = { λ n. record {
      roster = n.roster;
      id = n.id;
      state = record {
        floors = n.floors;
        copies = n.copies.copies;
        pending = n.pending;
        next = n.next;
        closed = n.closed;
      };
      store = n.store;
    } };

    ghost invariant = { λ n. IsNode n.roster n.id n.copies n.pending n.next n.closed
        × IsTied n.closed n.floors (S.is_usable n.store) (S.is_honest n.store)
        (S.content n.store) };
}

impl<T, S: FloorStore> Node<T, S> {
    /// Whether the node is closed. While it is open, no call of its store has failed, and an honest
    /// store has committed the node's floors.
    pub fn is_closed(&self) -> bool
        ensures value { result ≡ self.now.state.closed }
        ensures tied { IsTied self.now.state.closed self.now.state.floors
            (S.is_usable self.now.store) (S.is_honest self.now.store) (S.content self.now.store) }
    {
        self.closed
    }

    /// Whether the node is outside: its entry joins, and its base is 0, since the master has not
    /// admitted it.
    pub fn is_outside(&self) -> bool
        ensures { result ≡ is_outside (setting self.now.roster self.now.id) self.now.state }
    {
        !self.roster.is_founding(self.id) && self.floors.base() == 0
    }

    /// The base of its floors after a purge of the key with this number, where the base rises, else
    /// 0. Takes no memory.
    pub fn new_base(&self, key: &Key, number: u32) -> u32
        ensures { result ≡ new_base self.now.state.floors key.now number }
    {
        self.floors.new_base(key, number)
    }

    /// Its id in the roster.
    pub fn id(&self) -> u8
        ensures { result ≡ self.now.id }
    {
        self.id
    }

    /// The block of serials from which the next request's is looked for.
    pub fn next(&self) -> u32
        ensures { result ≡ self.now.state.next }
    {
        self.next
    }

    /// The pending request whose last fetch has this serial, if there is one. Before its first
    /// fetch, a request is found by the serial of its round. Allocates nothing.
    pub fn fetching(&self, serial: u32) -> Option<&Pending<T>>
        ensures { option_map (λ p. p.now) result
            ≡ find (λ p. fetch_serial p == serial) self.now.state.pending }
    {
        let place = self.pending.of_fetch(serial)?;
        Some(self.pending.ask(place))
    }
}

impl<T: Drop, S: FloorStore> Node<T, S> {
    /// Closes the node, as a store that fails does: no request is pending then, and every further
    /// step gives `Closed`. Allocates nothing.
    pub fn close(&mut self)
        ensures same { IsSameNode self.old self.new }
        ensures state { self.new.state ≡ closed_node self.old.state }
    {
        self.closed = true;
        self.pending = PendingList::new(self.alloc);
    }

    /// Drops all copies with a stamp less than this base, as a raise does that makes the base.
    /// `AllocError`: an allocation failed, and nothing changes.
    pub fn drop_below(&mut self, base: u32) -> Result<(), AllocError>
        ensures same { IsSameNode self.old self.new }
        ensures ok { OnOk result (self.new.state ≡ with_copies self.old.state
            (without_all_below base self.old.state.copies)) }
        ensures err { OnErr result (self.new.state ≡ self.old.state) }
    {
        self.copies.clear_all_below(base)?;
        Ok(())
    }
}
