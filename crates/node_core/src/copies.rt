//! Copies that are held, and new ones.
ghost use Rattle.std.specs.Prelude.{◌≡◌, option_map, unwrap_or, IfOk, IfErr, OnOk};
ghost use Rattle.node_rules.specs.State as state;
ghost use Rattle.node_rules.specs.Asks.{copy_for as copy_for_ask};
ghost use Rattle.node_rules.specs.Arrivals.{stored};
ghost use Rattle.node_core.specs.View.{IsSameNode};

use crate::Node;
use floor_rules::FloorStore;
use http_messages::Ask;
use object_store::WebCopy;
use reuse_rules::is_fresh;
use std::alloc::AllocError;
use url_key::Key;

/// The greatest age that is told, in seconds (RFC 9111, section 1.2.2).
const GREATEST_AGE: u64 = 2_147_483_648;

/// The age that the copy's response came with, 0 if it bore none.
fn age_of<T>(copy: &WebCopy<T>) -> u64
    ensures { result ≡ state.age_of copy.now }
{
    match copy.answer.age() {
        Some(age) => u64::from(age),
        None => 0,
    }
}

/// The age that a copy is served with, in seconds.
pub(crate) fn served_age<T>(copy: &WebCopy<T>, now: u64) -> u64
    ensures { result ≡ state.served_age copy.now now }
{
    let held = now.saturating_sub(copy.asked);
    age_of(copy).saturating_add(held).min(GREATEST_AGE)
}

/// Whether a copy may be served at this floor and time: its stamp is at least the floor, and it is
/// fresh (RFC 9111, section 4.2).
fn is_good<T>(floor: u32, now: u64, copy: &WebCopy<T>) -> bool
    ensures { result ≡ state.is_good floor now copy.now }
{
    floor <= copy.stamp && is_fresh(age_of(copy), copy.asked, now, copy.lifetime)
}

/// The copy, if it may be served at this floor and time.
fn if_good<T>(floor: u32, now: u64, copy: Option<&WebCopy<T>>) -> Option<&WebCopy<T>>
    ensures { option_map (λ c. c.now) result
        ≡ state.if_good floor now (option_map (λ c. c.now) copy.entry) }
{
    match copy {
        Some(copy) if is_good(floor, now, copy) => Some(copy),
        _ => None,
    }
}

impl<T: Copy + Drop, S: FloorStore> Node<T, S> {
    /// The key's copy, if it may be served. The store keeps its order.
    pub(crate) fn good_copy(&self, key: &Key, now: u64) -> Option<&WebCopy<T>>
        ensures { option_map (λ c. c.now) result ≡ state.good_copy self.now.state key.now now }
    {
        if_good(self.floors.floor(key), now, self.copies.peek(key))
    }

    /// The copy that serves a request; none if it bears `no-cache` (RFC 9111, section 5.2.1.4).
    fn copy_for(&self, ask: &Ask, now: u64) -> Option<&WebCopy<T>>
        ensures { option_map (λ c. c.now) result ≡ copy_for_ask self.now.state ask.now now }
    {
        if ask.no_cache {
            None
        } else {
            self.good_copy(&ask.key, now)
        }
    }

    /// The same as a copy to hand out.
    pub(crate) fn copy_to_serve(
        &self,
        ask: &Ask,
        now: u64,
    ) -> Result<Option<WebCopy<T>>, AllocError>
        ensures { IfOk result (λ copy. copy ≡ copy_for_ask self.now.state ask.now now) }
    {
        match self.copy_for(ask, now) {
            Some(copy) => Ok(Some(copy.copy(self.alloc)?)),
            None => Ok(None),
        }
    }

    /// Puts a new copy into the store if it has a lifetime, and returns one to hand out.
    pub(crate) fn store_new(
        &mut self,
        copy: WebCopy<T>,
        life: Option<u64>,
    ) -> Result<WebCopy<T>, AllocError>
        ensures same { IsSameNode self.old self.new }
        ensures ok { IfOk result (λ served. served ≡ copy) }
        ensures state { OnOk result (self.new.state
            ≡ state.with_copies self.old.state
            (stored self.old.roster.limits copy life self.old.state.copies)) }
        ensures err { IfErr result (λ _. self.new.state ≡ self.old.state) }
    {
        if life.is_none() {
            return Ok(copy);
        }
        let served = copy.copy(self.alloc)?;
        match self.copies.put(copy) {
            Ok(_) => Ok(served),
            Err((_, error)) => Err(error),
        }
    }
}
