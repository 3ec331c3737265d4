ghost use Rattle.std.specs.Prelude.{◌≡◌, ◌<◌, ◌==◌, ◌&&◌, Bool, All, length, [], ◌∷◌, ◌++◌, find};
ghost use Rattle.std.specs.Prelude.{slice_get, Some, MatchBool, MatchOption, IfSome, IfErr, OnOk};
ghost use Rattle.std.specs.Prelude.{OnErr};
ghost use Rattle.std.specs.Option.{option_and_then};
ghost use Rattle.node_rules.specs.declared.state.Pending.{Pending};
ghost use Rattle.node_rules.specs.State.{inserted, changed, ended, round_serial, fetch_serial};
ghost use Rattle.node_rules.specs.Asks.{IsBlock, block_after as next_block, free_from, is_taken};

use crate::Progress;
use node_rules::Pending;
use std::alloc::{AllocError, Global};
use std::marker::Model;
use std::mem::replace;

/// The most pending requests.
const MOST_ASKS: usize = 1_024;

/// The last block of serials.
const LAST_BLOCK: u32 = 134_217_727;

/// The block after this one, going round: after 134,217,727 comes 1.
pub fn block_after(block: u32) -> u32
    ensures value { result ≡ next_block block }
    ensures block { IsBlock result }
{
    if block < LAST_BLOCK { block + 1 } else { 1 }
}

/// The pending requests of a node, in the order of their blocks.
///
/// A contract sees the list of them. Their blocks ascend, from 1 to 134,217,727, and each request
/// can go on.
#[derive(Drop)]
pub struct PendingList<T> {
    asks: Vec<Pending<T>>,
}

impl<T> Model for PendingList<T> {
    ghost use Rattle.std.specs.Prelude.{List};
    ghost use Rattle.node_rules.specs.declared.state.Pending.{Pending};
    ghost use Rattle.node_waiting.specs.InOrder.{AreInOrder};

    ghost Value = { List (Pending T) };

    ghost view = { λ w. w.asks.items };

    ghost invariant = { λ w. AreInOrder w.asks.items };
}

impl<T> PendingList<T> {
    ghost use Rattle.node_waiting.specs.CanGoOn.{CanGoOn};
    ghost use Rattle.node_waiting.specs.InOrder.{AreInOrder};
    ghost use Rattle.node_waiting.specs.Changed.{progress_of, with_progress};
    ghost use Rattle.node_waiting.specs.Found.{IsPlaceOf, IsPlaceFor, IsAbsent, if_passes};

    /// An empty list. Allocates nothing.
    pub fn new(alloc: Global) -> PendingList<T>
        ensures { result ≡ [] }
    {
        PendingList {
            asks: Vec::new(alloc),
        }
    }

    /// How many requests are pending.
    pub fn len(&self) -> usize
        ensures count { result ≡ length self.now }
        ensures in_order { AreInOrder self.now }
    {
        self.asks.len()
    }

    /// Whether no request is pending.
    pub fn is_empty(&self) -> bool
        ensures { result ≡ (length self.now == 0) }
    {
        self.asks.is_empty()
    }

    /// The place of the request whose round has this serial, if there is one. Allocates nothing.
    pub fn of_round(&self, serial: u32) -> Option<usize>
        ensures found { option_and_then (slice_get self.now) result
            ≡ find (λ p. round_serial p == serial) self.now }
        ensures found_where { (test : Pending T → Bool) →
            if_passes test (option_and_then (slice_get self.now) result)
            ≡ find (λ p. (round_serial p == serial) && test p) self.now }
        ensures place { IfSome result (λ place. place < length self.now) }
    {
        let place = self.of_block(serial / 32)?;
        if serial % 32 == 0 { Some(place) } else { None }
    }

    /// The place of the request whose last fetch has this serial, if there is one. Before its first
    /// fetch, a request is found by the serial of its round. Allocates nothing.
    pub fn of_fetch(&self, serial: u32) -> Option<usize>
        ensures found { option_and_then (slice_get self.now) result
            ≡ find (λ p. fetch_serial p == serial) self.now }
        ensures found_where { (test : Pending T → Bool) →
            if_passes test (option_and_then (slice_get self.now) result)
            ≡ find (λ p. (fetch_serial p == serial) && test p) self.now }
        ensures place { IfSome result (λ place. place < length self.now) }
    {
        let (block, fetches) = (serial / 32, serial % 32);
        let place = self.of_block(block)?;
        if u32::from(self.asks[place].fetches) == fetches {
            Some(place)
        } else {
            None
        }
    }

    /// The place of the request with this block, if there is one.
    fn of_block(&self, block: u32) -> Option<usize>
        ensures in_order { AreInOrder self.now }
        ensures place { MatchOption result (IsAbsent self.now block) (IsPlaceOf self.now block) }
    {
        match self.asks.binary_search_by_key(&block, |ask| ask.block) {
            Ok(place) => Some(place),
            Err(_) => None,
        }
    }

    /// The request at a place, which must be below `len`.
    pub fn ask(&self, place: usize) -> &Pending<T>
        requires { place < length self.now }
        ensures value { slice_get self.now place ≡ Some result.now }
        ensures block { IsBlock result.now.block }
        ensures can_go_on { CanGoOn result.now }
    {
        &self.asks[place]
    }

    /// Whether a request has this block. Allocates nothing.
    fn is_taken(&self, block: u32) -> bool
        ensures taken { result ≡ is_taken self.now block }
        ensures absent { MatchBool result (Unit {0}) (IsAbsent self.now block) }
    {
        match self.of_block(block) {
            Some(_) => true,
            None => false,
        }
    }

    /// The block for one request more, going round from this one: none if 1,024 requests are
    /// pending. Allocates nothing.
    pub fn free_block(&self, from: u32) -> Option<u32>
        requires { IsBlock from }
        ensures value { result ≡ free_from self.now from }
        ensures block { IfSome result (λ block. IsBlock block) }
        ensures absent { IfSome result (λ block. IsAbsent self.now block) }
    {
        if self.len() >= MOST_ASKS {
            return None;
        }
        let mut block = from;
        for _ in 0..MOST_ASKS {
            if !self.is_taken(block) {
                return Some(block);
            }
            block = block_after(block);
        }
        None
    }

    /// The place for a request with this block: behind those of lesser blocks.
    fn place_for(&self, block: u32) -> usize
        ensures { IsPlaceFor self.now block result }
    {
        self.asks.partition_point(|ask| ask.block < block)
    }

    /// Adds a request, in the order of blocks. No other may have its block, which must be from 1 to
    /// 134,217,727, and it must be able to go on.
    ///
    /// If an allocation fails, the request comes back and nothing changes.
    pub fn add(&mut self, ask: Pending<T>) -> Result<(), (Pending<T>, AllocError)>
        requires block { IsBlock ask.block }
        requires absent { IsAbsent self.old ask.block }
        requires can_go_on { CanGoOn ask }
        ensures ok { OnOk result (self.new ≡ inserted ask self.old) }
        ensures err { OnErr result (self.new ≡ self.old) }
        ensures returned { IfErr result (λ refused. refused.0 ≡ ask) }
    {
        let place = self.place_for(ask.block);
        if let Err(failed) = self.asks.insert(place, ask) {
            return Err((failed.value, AllocError));
        }
        Ok(())
    }

    /// Sets how far the request at a place is, and gives back how far it was. The request stays in
    /// its place. Allocates nothing.
    ///
    /// The place must be below `len`, and the request must be able to go on then.
    pub fn replace(&mut self, place: usize, progress: Progress<T>) -> Progress<T>
        requires place { place < length self.old }
        requires can_go_on { IfSome (slice_get self.old place) (λ p.
            CanGoOn (with_progress p progress)) }
        ensures before { IfSome (slice_get self.old place) (λ p. result ≡ progress_of p) }
        ensures changed { IfSome (slice_get self.old place) (λ p.
            self.new ≡ changed (with_progress p progress) self.old) }
        ensures there { IfSome (slice_get self.old place) (λ p.
            slice_get self.new place ≡ Some (with_progress p progress)) }
    {
        let ask = &mut self.asks[place];
        Progress {
            round: replace(&mut ask.round, progress.round),
            tried: replace(&mut ask.tried, progress.tried),
            fetches: replace(&mut ask.fetches, progress.fetches),
            reads: replace(&mut ask.reads, progress.reads),
            fetch: replace(&mut ask.fetch, progress.fetch),
        }
    }

    /// Removes the request at a place, which must be below `len`. Those behind it move up by one.
    pub fn end(&mut self, place: usize) -> Pending<T>
        requires { place < length self.old }
        ensures value { slice_get self.old place ≡ Some result }
        ensures rest { self.new ≡ ended result.block self.old }
    {
        self.asks.remove(place)
    }
}

impl<T: Drop> PendingList<T> {
    ghost use Rattle.node_waiting.specs.CanGoOn.{CanGoOn};
    ghost use Rattle.node_waiting.specs.Changed.{with_progress};

    /// Sets how far the request at a place is, as `replace` does, and drops how far it was.
    /// Allocates nothing.
    pub fn change(&mut self, place: usize, progress: Progress<T>)
        requires place { place < length self.old }
        requires can_go_on { IfSome (slice_get self.old place) (λ p.
            CanGoOn (with_progress p progress)) }
        ensures changed { IfSome (slice_get self.old place) (λ p.
            self.new ≡ changed (with_progress p progress) self.old) }
        ensures there { IfSome (slice_get self.old place) (λ p.
            slice_get self.new place ≡ Some (with_progress p progress)) }
    {
        let _ = self.replace(place, progress);
    }
}
