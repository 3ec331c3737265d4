//! Copies that are placed by hand, without a response to a fetch. Scripts use this.
ghost use Rattle.std.specs.Prelude.{◌≡◌, ◌≢◌, true, false, IfOk, OnOk, OnErr, Err};
ghost use Rattle.node_core.specs.Names.{place_fault_name};
ghost use Rattle.node_core.specs.Placed as spec;
ghost use Rattle.node_core.specs.View.{IsSameNode};

use crate::Node;
use floor_rules::FloorStore;
use http_messages::{Answer, Body, Fields};
use object_store::{Put, WebCopy};
use std::alloc::{AllocError, Global};
use thiserror::Error;
use url_key::Key;

/// The lifetime of a placed copy, in seconds.
const LIFETIME: u64 = 60;

/// What placing a copy did.
#[derive(Clone, Copy, Debug, PartialEq, Eq)]
pub enum Placed {
    /// The stamp is below the floor of the key. Nothing changed.
    Old,
    /// The copy alone has more octets than the store may hold. Nothing changed.
    TooLarge,
    /// A copy of the key with a greater stamp is held. Nothing changed.
    Kept,
    /// The copy is held.
    Stored,
}

/// Why a copy was not placed.
#[derive(Clone, Copy, Debug, PartialEq, Eq, Error)]
pub enum PlaceFault {
    /// The node is closed.
    #[error("the node is closed")]
    Closed,
    /// An allocation failed. Nothing changed.
    #[error("there was no memory")]
    NoMemory,
}

impl From<AllocError> for PlaceFault {
    ghost use Rattle.std.specs.Prelude.{◌≡◌};
    ghost use Rattle.node_core.specs.declared.placing.PlaceFault.TheVariants.{NoMemory};

    ghost from_gives = { λ _ fault. fault ≡ NoMemory };

    fn from(_: AllocError) -> PlaceFault {
        PlaceFault::NoMemory
    }
}

impl PlaceFault {
    /// The fault's name, as scripts print it.
    pub const fn name(self) -> &'static str
        ensures { result.now ≡ place_fault_name self }
    {
        match self {
            PlaceFault::Closed => "Closed",
            PlaceFault::NoMemory => "NoMemory",
        }
    }
}

/// A copy of an empty response of status 200, requested at time 0.
fn empty_copy<T: Drop>(
    alloc: Global,
    key: &Key,
    stamp: u32,
    tag: T,
) -> Result<WebCopy<T>, AllocError>
    ensures { IfOk result (λ copy. copy ≡ spec.empty_copy key.now stamp tag) }
{
    let fields = Fields::new(alloc, Vec::new(alloc))?;
    let Some(answer) = Answer::new(200, fields, None, None, Body::empty()) else {
        unreachable!()
    };
    Ok(WebCopy {
        key: key.copy(alloc)?,
        stamp,
        asked: 0,
        lifetime: LIFETIME,
        answer,
        tag,
    })
}

/// What the store did with a placed copy.
fn placed_by(put: Put) -> Placed
    ensures { result ≡ spec.put_as put }
{
    match put {
        Put::TooLarge => Placed::TooLarge,
        Put::Kept => Placed::Kept,
        Put::Stored => Placed::Stored,
    }
}

impl<T: Copy + Drop, S: FloorStore> Node<T, S> {
    /// Puts a copy into the store: an empty response of status 200, requested at time 0 and fresh
    /// for 60 seconds. Its stamp is the given one, or else the greatest number seen.
    ///
    /// A stamp below the key's floor puts nothing (`Old`). A closed node gives `Closed`.
    pub fn place(&mut self, key: &Key, stamp: Option<u32>, tag: T) -> Result<Placed, PlaceFault>
        ensures same { IsSameNode self.old self.new }
        ensures closed { self.old.state.closed ≡ true → result ≡ Err PlaceFault.Closed }
        ensures open { self.old.state.closed ≡ false → result ≢ Err PlaceFault.Closed }
        ensures placed { IfOk result (λ placed.
            placed ≡ spec.placed_as self.old.roster.limits self.old.state key.now stamp tag) }
        ensures state { OnOk result (self.new.state
            ≡ spec.with_placed self.old.roster.limits self.old.state key.now stamp tag) }
        ensures unchanged { OnErr result (self.new.state ≡ self.old.state) }
    {
        if self.closed {
            return Err(PlaceFault::Closed);
        }
        let stamp = stamp.unwrap_or(self.floors.seen());
        if stamp < self.floors.floor(key) {
            return Ok(Placed::Old);
        }
        let copy = empty_copy(self.alloc, key, stamp, tag)?;
        match self.copies.put(copy) {
            Ok(put) => Ok(placed_by(put)),
            Err((_, error)) => Err(PlaceFault::from(error)),
        }
    }
}
