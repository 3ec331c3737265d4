//! How a pending request goes on: to a peer, to the origin, or to its end (`specs/Fetching` of
//! `node_rules`).
ghost use Rattle.std.specs.Prelude.{◌≡◌, ◌<◌, ◌≤◌, ◌+◌, ◌*◌, ℕ, List, Option, length, true, IfOk};
ghost use Rattle.std.specs.Prelude.{IfSome, Some, None, slice_get};
ghost use Rattle.node_rules.specs.State as state;
ghost use Rattle.node_rules.specs.Fetching as fetching;
ghost use Rattle.node_rules.specs.declared.state.Fetch.TheVariants.{AtPeer, AtOrigin};
ghost use Rattle.node_waiting.specs.CanGoOn.{CanGoOn};
ghost use Rattle.node_waiting.specs.Changed.{with_progress};
ghost use Rattle.node_core.specs.View.{IsSameNode, setting_of};
ghost use Rattle.node_core.specs.Leads.{Leads};

use crate::Node;
use crate::replies::{begins, quiet, serves};
use floor_rules::FloorStore;
use http_messages::Ask;
use node_messages::has_origin;
use node_rules::{Begin, Fetch, Reply, Served, StepFault};
use node_waiting::Progress;
use peer_chooser::{Round, Source};
use roster::is_foreign;
use std::alloc::{AllocError, Global};

/// The most origin reads for one request.
const MOST_READS: u8 = 3;

/// The id that a peer is told. A foreign cache is told none.
fn own_id(id: u8, peer: u8) -> Option<u8>
    ensures { result ≡ fetching.own_id id peer }
{
    if is_foreign(peer) { None } else { Some(id) }
}

/// Where a request goes next. Without a round there is only the origin.
fn source_of(round: &Option<Round>, floor: u32, tried: &[u8]) -> Source
    ensures { result ≡ fetching.choice_of round.now floor tried.now }
{
    match round {
        Some(round) => round.next(floor, tried),
        None => Source::Origin,
    }
}

/// How far a request is once this fetch has begun.
fn fetching_from<T: Drop>(progress: Progress<T>, reads: u8, fetch: Fetch<T>) -> Progress<T>
    requires { progress.fetches < 255 }
    ensures { result ≡ record {
      round = progress.round;
      tried = progress.tried;
      fetches = progress.fetches + 1;
      reads = reads;
      fetch = fetch;
    } }
{
    Progress {
        round: progress.round,
        tried: progress.tried,
        fetches: progress.fetches + 1,
        reads,
        fetch,
    }
}

impl<T: Copy + Drop, S: FloorStore> Node<T, S> {
    /// Goes on with the request at a place, which has come so far and has no fetch running: where
    /// its round says, by the floor as it is now.
    pub(crate) fn go_on(
        &mut self,
        place: usize,
        progress: Progress<T>,
        now: u64,
        mark: T,
    ) -> Result<Reply<T>, StepFault>
        requires place { place < length self.old.state.pending }
        requires idle { state.is_idle progress.fetch ≡ true }
        requires can_go_on { IfSome (slice_get self.old.state.pending place) (λ p.
            CanGoOn (with_progress p progress)) }
        ensures same { IsSameNode self.old self.new }
        ensures leads { (key_of : List ℕ → Option (List ℕ)) →
            IfSome (slice_get self.old.state.pending place) (λ p.
            Leads (fetching.go_on (setting_of self.old key_of) self.old.state
            (with_progress p progress) now mark) self.old.state result self.new.state) }
    {
        let floor = self.floors.floor(&self.pending.ask(place).ask.key);
        match source_of(&progress.round, floor, progress.tried.as_slice()) {
            Source::Wait => {
                self.pending.change(place, progress);
                Ok(quiet(self.alloc))
            }
            Source::Peer { id, only_if_cached } => {
                self.ask_peer(place, progress, id, only_if_cached, now)
            }
            Source::Origin => self.read_origin(place, progress, now, mark),
        }
    }

    /// Begins a fetch from a peer for the request at a place.
    fn ask_peer(
        &mut self,
        place: usize,
        progress: Progress<T>,
        peer: u8,
        cached: bool,
        now: u64,
    ) -> Result<Reply<T>, StepFault>
        requires place { place < length self.old.state.pending }
        requires serial { progress.fetches < 31 }
        requires can_go_on { IfSome (slice_get self.old.state.pending place) (λ p.
            CanGoOn (fetching.fetching (with_progress p progress) progress.reads
            (AtPeer peer now))) }
        ensures same { IsSameNode self.old self.new }
        ensures leads { (key_of : List ℕ → Option (List ℕ)) →
            IfSome (slice_get self.old.state.pending place) (λ p.
            Leads (fetching.ask_peer (setting_of self.old key_of) self.old.state
            (with_progress p progress) peer cached now)
            self.old.state result self.new.state) }
    {
        let ask = self.pending.ask(place);
        let asked = Ask {
            key: ask.ask.key.copy(self.alloc)?,
            only_if_cached: cached,
            no_cache: false,
            member: own_id(self.id, peer),
        };
        let serial = serial_of(ask.block, progress.fetches + 1);
        let reads = progress.reads;
        let fetch = Fetch::AtPeer { peer, asked: now };
        self.pending
            .change(place, fetching_from(progress, reads, fetch));
        Ok(begins(
            self.alloc,
            Begin::Peer {
                serial,
                peer,
                ask: asked,
            },
        ))
    }

    /// Begins an origin read for the request at a place, or ends the request: 503 after three
    /// reads, 502 if the roster has no such origin.
    fn read_origin(
        &mut self,
        place: usize,
        progress: Progress<T>,
        now: u64,
        mark: T,
    ) -> Result<Reply<T>, StepFault>
        requires place { place < length self.old.state.pending }
        requires idle { state.is_idle progress.fetch ≡ true }
        requires can_go_on { IfSome (slice_get self.old.state.pending place) (λ p.
            CanGoOn (with_progress p progress)) }
        ensures same { IsSameNode self.old self.new }
        ensures leads { (key_of : List ℕ → Option (List ℕ)) →
            IfSome (slice_get self.old.state.pending place) (λ p.
            Leads (fetching.read_origin (setting_of self.old key_of) self.old.state
            (with_progress p progress) (Some p.block) now mark)
            self.old.state result self.new.state) }
    {
        if progress.reads >= MOST_READS {
            return Ok(self.give_up(place, 503));
        }
        if !has_origin(&self.roster, &self.pending.ask(place).ask.key) {
            return Ok(self.give_up(place, 502));
        }
        self.begin_read(place, progress, now, mark)
    }

    /// Begins an origin read for the request at a place, with the greatest number seen and the
    /// mark of the step.
    fn begin_read(
        &mut self,
        place: usize,
        progress: Progress<T>,
        now: u64,
        mark: T,
    ) -> Result<Reply<T>, StepFault>
        requires place { place < length self.old.state.pending }
        requires serial { progress.fetches < 31 }
        requires reads { progress.reads < 3 }
        requires can_go_on { IfSome (slice_get self.old.state.pending place) (λ p. (stamp : ℕ) →
            CanGoOn (fetching.fetching (with_progress p progress) (progress.reads + 1)
            (AtOrigin stamp now mark))) }
        ensures same { IsSameNode self.old self.new }
        ensures leads { IfSome (slice_get self.old.state.pending place) (λ p.
            Leads (fetching.begin_read self.old.state (with_progress p progress) now mark)
            self.old.state result self.new.state) }
    {
        let ask = self.pending.ask(place);
        let asked = origin_ask(self.alloc, &ask.ask)?;
        let serial = serial_of(ask.block, progress.fetches + 1);
        let reads = progress.reads + 1;
        let fetch = Fetch::AtOrigin {
            stamp: self.floors.seen(),
            asked: now,
            mark,
        };
        self.pending
            .change(place, fetching_from(progress, reads, fetch));
        Ok(begins(self.alloc, Begin::Read { serial, ask: asked }))
    }

    /// Ends the request at a place with a bare status.
    pub(crate) fn give_up(&mut self, place: usize, status: u16) -> Reply<T>
        requires place { place < length self.old.state.pending }
        ensures same { IsSameNode self.old self.new }
        ensures gives_up { IfSome (slice_get self.old.state.pending place) (λ p.
            fetching.give_up self.old.state p (Some p.block) status
            ≡ state.replies self.new.state result) }
    {
        let ask = self.pending.end(place);
        serves(
            self.alloc,
            Some(ask.block),
            ask.asker,
            Served::Status(status),
        )
    }
}

/// The serial of a fetch of a block; with 0 fetches, that of its round.
pub(crate) fn serial_of(block: u32, fetches: u8) -> u32
    requires block { block ≤ 134217727 }
    requires fetches { fetches < 32 }
    ensures { result ≡ 32 * block + fetches }
{
    32 * block + u32::from(fetches)
}

/// The request that an origin is sent: for the same key, with `no-cache` if the pending request
/// bears it.
pub(crate) fn origin_ask(alloc: Global, ask: &Ask) -> Result<Ask, AllocError>
    ensures { IfOk result (λ made. made ≡ fetching.origin_ask ask.now) }
{
    Ok(Ask {
        key: ask.key.copy(alloc)?,
        only_if_cached: false,
        no_cache: ask.no_cache,
        member: None,
    })
}
