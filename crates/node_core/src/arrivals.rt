//! A response to a fetch arrives, a fetch fails, or a round expires (`specs/Arrivals` of
//! `node_rules`).
ghost use Rattle.std.specs.Prelude.{◌≡◌, ◌<◌, ◌++◌, ◌∷◌, [], ℕ, List, Option, Some, find, length};
ghost use Rattle.std.specs.Prelude.{unwrap_or, IfOk, IfSome, false, true, slice_get};
ghost use Rattle.node_rules.specs.State as state;
ghost use Rattle.node_rules.specs.Arrivals as arrivals;
ghost use Rattle.node_rules.specs.declared.state.Fetch.TheVariants.{AtPeer, AtOrigin};
ghost use Rattle.std.specs.Option.{option_and_then};
ghost use Rattle.node_waiting.specs.CanGoOn.{CanGoOn};
ghost use Rattle.node_waiting.specs.Changed.{progress_of};
ghost use Rattle.node_core.specs.View.{IsSameNode, setting_of};
ghost use Rattle.node_core.specs.Leads.{Leads};

use crate::Node;
use crate::copies::served_age;
use crate::replies::{quiet, serves};
use floor_rules::FloorStore;
use http_messages::Answer;
use node_rules::{Fetch, Pending, Reply, Served, StepFault, is_gateway_fault};
use node_waiting::Progress;
use object_store::WebCopy;
use peer_chooser::Round;
use reuse_rules::lifetime;
use roster::{Listed, is_foreign};
use std::alloc::{AllocError, Global};
use url_key::Key;

/// Whether no fetch runs.
fn is_idle<T>(fetch: &Fetch<T>) -> bool
    ensures { result ≡ state.is_idle fetch.now }
{
    match fetch {
        Fetch::Nowhere => true,
        Fetch::AtPeer { .. } | Fetch::AtOrigin { .. } => false,
    }
}

/// Copies a fetch.
pub(crate) fn same_fetch<T: Copy>(fetch: &Fetch<T>) -> Fetch<T>
    ensures { result ≡ fetch.now }
{
    match fetch {
        Fetch::Nowhere => Fetch::Nowhere,
        Fetch::AtPeer { peer, asked } => Fetch::AtPeer {
            peer: *peer,
            asked: *asked,
        },
        Fetch::AtOrigin { stamp, asked, mark } => Fetch::AtOrigin {
            stamp: *stamp,
            asked: *asked,
            mark: *mark,
        },
    }
}

/// Copies a round, if there is one.
pub(crate) fn same_round(round: &Option<Round>) -> Option<Round>
    ensures { result ≡ round.now }
{
    match round {
        Some(round) => Some(round.copy()),
        None => None,
    }
}

/// These peers, and one more.
fn with_one_more(alloc: Global, peers: &[u8], peer: u8) -> Result<Listed<u8>, AllocError>
    ensures { IfOk result (λ made. made ≡ peers.now ++ peer ∷ []) }
{
    let mut made = Vec::from_slice(alloc, peers)?;
    made.push(peer)?;
    Ok(Listed::new(made))
}

/// Copies a list of peers.
pub(crate) fn same_peers(alloc: Global, peers: &[u8]) -> Result<Listed<u8>, AllocError>
    ensures { IfOk result (λ made. made ≡ peers.now) }
{
    Ok(Listed::new(Vec::from_slice(alloc, peers)?))
}

/// How far a request is once its fetch has ended, with these peers tried.
fn not_fetching<T>(ask: &Pending<T>, tried: Listed<u8>) -> Progress<T>
    ensures { result ≡ progress_of (arrivals.not_fetching ask.now tried) }
{
    Progress {
        round: same_round(&ask.round),
        tried,
        fetches: ask.fetches,
        reads: ask.reads,
        fetch: Fetch::Nowhere,
    }
}

/// How far a request is with its round as it is now.
fn with_round<T: Copy>(
    alloc: Global,
    ask: &Pending<T>,
    round: Round,
) -> Result<Progress<T>, AllocError>
    ensures { IfOk result (λ progress. progress ≡ progress_of (arrivals.with_round ask.now round)) }
{
    Ok(Progress {
        round: Some(round),
        tried: same_peers(alloc, ask.tried.as_slice())?,
        fetches: ask.fetches,
        reads: ask.reads,
        fetch: same_fetch(&ask.fetch),
    })
}

impl<T: Copy + Drop, S: FloorStore> Node<T, S> {
    /// The place of the request whose last fetch has this serial, if it is for this key.
    fn place_of_fetch(&self, serial: u32, key: &Key) -> Option<usize>
        ensures place { IfSome result (λ place. place < length self.now.state.pending) }
        ensures found { option_and_then (slice_get self.now.state.pending) result
            ≡ find (arrivals.is_fetch serial key.now) self.now.state.pending }
    {
        let place = self.pending.of_fetch(serial)?;
        if self.pending.ask(place).ask.key == *key {
            Some(place)
        } else {
            None
        }
    }

    /// Makes the response a copy, stores it if it may be, and serves it to the request at a place,
    /// which ends.
    fn use_answer(
        &mut self,
        place: usize,
        stamp: u32,
        asked: u64,
        answer: Answer,
        tag: T,
        now: u64,
    ) -> Result<Reply<T>, StepFault>
        requires place { place < length self.old.state.pending }
        ensures same { IsSameNode self.old self.new }
        ensures leads { (key_of : List ℕ → Option (List ℕ)) →
            IfSome (slice_get self.old.state.pending place) (λ p.
            Leads (arrivals.use_answer (setting_of self.old key_of)
            self.old.state p stamp asked answer tag now)
            self.old.state result self.new.state) }
    {
        let key = self.pending.ask(place).ask.key.copy(self.alloc)?;
        let life = lifetime(&answer, self.roster.limits().default_lifetime);
        let copy = self.store_new(
            WebCopy {
                key,
                stamp,
                asked,
                lifetime: life.unwrap_or(0),
                answer,
                tag,
            },
            life,
        )?;
        let age = served_age(&copy, now);
        let ask = self.pending.end(place);
        Ok(serves(
            self.alloc,
            Some(ask.block),
            ask.asker,
            Served::Copy { copy, age },
        ))
    }

    /// Counts the peer of the request at a place as tried, and goes on with the request.
    fn try_on(&mut self, place: usize, peer: u8, now: u64, mark: T) -> Result<Reply<T>, StepFault>
        requires place { place < length self.old.state.pending }
        requires fetch { IfSome (slice_get self.old.state.pending place) (λ p. (asked : ℕ)
            × (p.fetch ≡ AtPeer peer asked)) }
        ensures same { IsSameNode self.old self.new }
        ensures leads { (key_of : List ℕ → Option (List ℕ)) →
            IfSome (slice_get self.old.state.pending place) (λ p.
            Leads (arrivals.try_on (setting_of self.old key_of) self.old.state p peer now mark)
            self.old.state result self.new.state) }
    {
        let ask = self.pending.ask(place);
        let tried = with_one_more(self.alloc, ask.tried.as_slice(), peer)?;
        let progress = not_fetching(ask, tried);
        self.go_on(place, progress, now, mark)
    }

    /// A peer responds to the request at a place. The response is used unless its status is a
    /// gateway's, or its stamp is below the key's floor as it is now.
    fn peer_gave(
        &mut self,
        place: usize,
        peer: u8,
        asked: u64,
        stamp: u32,
        answer: Answer,
        tag: T,
        now: u64,
        mark: T,
    ) -> Result<Reply<T>, StepFault>
        requires place { place < length self.old.state.pending }
        requires fetch { IfSome (slice_get self.old.state.pending place) (λ p.
            p.fetch ≡ AtPeer peer asked) }
        ensures same { IsSameNode self.old self.new }
        ensures leads { (key_of : List ℕ → Option (List ℕ)) →
            IfSome (slice_get self.old.state.pending place) (λ p.
            Leads (arrivals.peer_gave (setting_of self.old key_of)
            self.old.state p peer asked stamp answer tag now mark)
            self.old.state result self.new.state) }
    {
        let floor = self.floors.floor(&self.pending.ask(place).ask.key);
        if floor <= stamp && !is_gateway_fault(answer.status()) {
            self.use_answer(place, stamp, asked, answer, tag, now)
        } else {
            self.try_on(place, peer, now, mark)
        }
    }

    /// The origin responds to the request at a place. The response is used unless the key's floor
    /// has risen above the stamp of the read.
    fn origin_gave(
        &mut self,
        place: usize,
        stamp: u32,
        asked: u64,
        read_mark: T,
        answer: Answer,
        now: u64,
        mark: T,
    ) -> Result<Reply<T>, StepFault>
        requires place { place < length self.old.state.pending }
        requires fetch { IfSome (slice_get self.old.state.pending place) (λ p.
            p.fetch ≡ AtOrigin stamp asked read_mark) }
        ensures same { IsSameNode self.old self.new }
        ensures leads { (key_of : List ℕ → Option (List ℕ)) →
            IfSome (slice_get self.old.state.pending place) (λ p.
            Leads (arrivals.origin_gave (setting_of self.old key_of)
            self.old.state p stamp asked read_mark answer now mark)
            self.old.state result self.new.state) }
    {
        let ask = self.pending.ask(place);
        if self.floors.floor(&ask.ask.key) <= stamp {
            return self.use_answer(place, stamp, asked, answer, read_mark, now);
        }
        let tried = same_peers(self.alloc, ask.tried.as_slice())?;
        let progress = not_fetching(ask, tried);
        self.go_on(place, progress, now, mark)
    }

    /// A peer responds, with this stamp.
    fn peer_answer_to(
        &mut self,
        serial: u32,
        peer: u8,
        key: &Key,
        stamp: u32,
        answer: Answer,
        tag: T,
        now: u64,
        mark: T,
    ) -> Result<Reply<T>, StepFault>
        ensures same { IsSameNode self.old self.new }
        ensures leads { (key_of : List ℕ → Option (List ℕ)) →
            Leads (arrivals.peer_answer_to
            (setting_of self.old key_of) self.old.state peer stamp answer tag now mark
            (find (arrivals.is_fetch serial key.now) self.old.state.pending))
            self.old.state result self.new.state }
    {
        let Some(place) = self.place_of_fetch(serial, key) else {
            return Err(StepFault::UnknownSerial);
        };
        match self.pending.ask(place).fetch {
            Fetch::AtPeer { peer: at, asked } if at == peer => {
                self.peer_gave(place, peer, asked, stamp, answer, tag, now, mark)
            }
            _ => Err(StepFault::UnknownSerial),
        }
    }

    /// A member responds. The stamp that it bears counts, 0 if it bears none.
    pub(crate) fn peer_answer(
        &mut self,
        serial: u32,
        peer: u8,
        key: &Key,
        answer: Answer,
        tag: T,
        now: u64,
        mark: T,
    ) -> Result<Reply<T>, StepFault>
        ensures same { IsSameNode self.old self.new }
        ensures leads { (key_of : List ℕ → Option (List ℕ)) →
            Leads (arrivals.peer_answer (setting_of self.old key_of)
            self.old.state serial peer key.now answer tag now mark)
            self.old.state result self.new.state }
    {
        if is_foreign(peer) {
            return Err(StepFault::UnknownSerial);
        }
        let stamp = answer.stamp().unwrap_or(0);
        self.peer_answer_to(serial, peer, key, stamp, answer, tag, now, mark)
    }

    /// A foreign cache responds. Its stamp counts as 0.
    pub(crate) fn foreign_answer(
        &mut self,
        serial: u32,
        peer: u8,
        key: &Key,
        answer: Answer,
        tag: T,
        now: u64,
        mark: T,
    ) -> Result<Reply<T>, StepFault>
        ensures same { IsSameNode self.old self.new }
        ensures leads { (key_of : List ℕ → Option (List ℕ)) →
            Leads (arrivals.foreign_answer
            (setting_of self.old key_of) self.old.state serial peer key.now answer tag now mark)
            self.old.state result self.new.state }
    {
        if !is_foreign(peer) {
            return Err(StepFault::UnknownSerial);
        }
        self.peer_answer_to(serial, peer, key, 0, answer, tag, now, mark)
    }

    /// The origin responds. The stamp and the mark of the read count.
    pub(crate) fn origin_answer(
        &mut self,
        serial: u32,
        key: &Key,
        answer: Answer,
        now: u64,
        mark: T,
    ) -> Result<Reply<T>, StepFault>
        ensures same { IsSameNode self.old self.new }
        ensures leads { (key_of : List ℕ → Option (List ℕ)) →
            Leads (arrivals.origin_answer (setting_of self.old key_of)
            self.old.state serial key.now answer now mark)
            self.old.state result self.new.state }
    {
        let Some(place) = self.place_of_fetch(serial, key) else {
            return Err(StepFault::UnknownSerial);
        };
        match self.pending.ask(place).fetch {
            Fetch::AtOrigin {
                stamp,
                asked,
                mark: read_mark,
            } => self.origin_gave(place, stamp, asked, read_mark, answer, now, mark),
            _ => Err(StepFault::UnknownSerial),
        }
    }

    /// A fetch fails. A failed peer counts as tried; a failed origin read ends in 502 (RFC 9110,
    /// section 15.6.3).
    pub(crate) fn fetch_failed(
        &mut self,
        serial: u32,
        now: u64,
        mark: T,
    ) -> Result<Reply<T>, StepFault>
        ensures same { IsSameNode self.old self.new }
        ensures leads { (key_of : List ℕ → Option (List ℕ)) →
            Leads (arrivals.fetch_failed (setting_of self.old key_of)
            self.old.state serial now mark) self.old.state result self.new.state }
    {
        let Some(place) = self.pending.of_fetch(serial) else {
            return Err(StepFault::UnknownSerial);
        };
        match self.pending.ask(place).fetch {
            Fetch::AtPeer { peer, .. } => self.try_on(place, peer, now, mark),
            Fetch::AtOrigin { .. } => Ok(self.give_up(place, 502)),
            Fetch::Nowhere => Err(StepFault::UnknownSerial),
        }
    }

    /// The round of the request at a place has changed to this. The request goes on unless a fetch
    /// runs for it; else it only keeps the round.
    pub(crate) fn round_moves(
        &mut self,
        place: usize,
        round: Round,
        now: u64,
        mark: T,
    ) -> Result<Reply<T>, StepFault>
        requires place { place < length self.old.state.pending }
        requires can_go_on { IfSome (slice_get self.old.state.pending place) (λ p.
            CanGoOn (arrivals.with_round p round)) }
        ensures same { IsSameNode self.old self.new }
        ensures leads { (key_of : List ℕ → Option (List ℕ)) →
            IfSome (slice_get self.old.state.pending place) (λ p.
            Leads (arrivals.round_moves (setting_of self.old key_of) self.old.state
            (arrivals.with_round p round) now mark) self.old.state result self.new.state) }
    {
        let progress = with_round(self.alloc, self.pending.ask(place), round)?;
        if is_idle(&progress.fetch) {
            self.go_on(place, progress, now, mark)
        } else {
            self.pending.change(place, progress);
            Ok(quiet(self.alloc))
        }
    }

    /// A round expires: no more answers are waited for. Later ones still count.
    pub(crate) fn round_expired(
        &mut self,
        serial: u32,
        now: u64,
        mark: T,
    ) -> Result<Reply<T>, StepFault>
        ensures same { IsSameNode self.old self.new }
        ensures leads { (key_of : List ℕ → Option (List ℕ)) →
            Leads (arrivals.round_expired (setting_of self.old key_of)
            self.old.state serial now mark) self.old.state result self.new.state }
    {
        let Some(place) = self.pending.of_round(serial) else {
            return Err(StepFault::UnknownSerial);
        };
        match same_round(&self.pending.ask(place).round) {
            Some(mut round) => {
                round.expire();
                self.round_moves(place, round, now, mark)
            }
            None => Err(StepFault::UnknownSerial),
        }
    }
}
