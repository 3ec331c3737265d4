//! A client's or a member's request arrives (`specs/Asks` of `node_rules`).
ghost use Rattle.std.specs.Prelude.{◌≡◌, ◌≤◌, ℕ, List, [], Option, None, Some, IfOk, OnOk, OnErr};
ghost use Rattle.std.specs.Prelude.{false};
ghost use Rattle.roster.specs.Lookups.{is_member};
ghost use Rattle.object_store.specs.Listed.{to_front};
ghost use Rattle.node_rules.specs.State as state;
ghost use Rattle.node_rules.specs.Asks as asks;
ghost use Rattle.node_rules.specs.Asks.{IsBlock};
ghost use Rattle.node_waiting.specs.CanGoOn.{CanGoOn};
ghost use Rattle.node_waiting.specs.Found.{IsAbsent};
ghost use Rattle.node_core.specs.View.{IsSameNode, setting_of};
ghost use Rattle.node_core.specs.Leads.{Leads};

use crate::Node;
use crate::copies::served_age;
use crate::going_on::{origin_ask, serial_of};
use crate::replies::{begins, serves};
use floor_rules::FloorStore;
use http_messages::Ask;
use node_messages::{has_origin, queries};
use node_rules::{Begin, Fetch, Pending, Reply, Served, StepFault};
use node_waiting::block_after;
use object_store::WebCopy;
use peer_chooser::Round;
use roster::{Listed, Roster};
use std::alloc::AllocError;
use url_key::Key;

/// Whether a member sent the request whose entry names this node a sibling.
fn is_siblings_ask(roster: &Roster, id: u8, asker: Option<u8>) -> bool
    ensures { (key_of : List ℕ → Option (List ℕ)) → result ≡ asks.is_siblings_ask (record {
      roster = roster.now;
      id = id;
      key_of = key_of;
    }) asker }
{
    match asker {
        Some(asker) => roster.names_sibling(asker, id),
        None => false,
    }
}

impl<T: Copy + Drop, S: FloorStore> Node<T, S> {
    /// A request arrives. An outside node serves 503 (RFC 9110, section 15.6.4), and changes
    /// nothing.
    pub(crate) fn ask(
        &mut self,
        asker: Option<u8>,
        ask: Ask,
        now: u64,
        mark: T,
    ) -> Result<Reply<T>, StepFault>
        requires { self.old.state.closed ≡ false }
        ensures same { IsSameNode self.old self.new }
        ensures leads { (key_of : List ℕ → Option (List ℕ)) →
            Leads (asks.ask_comes (setting_of self.old key_of) self.old.state asker ask now mark)
            self.old.state result self.new.state }
    {
        if self.is_outside() {
            return Ok(serves(self.alloc, None, asker, Served::Status(503)));
        }
        self.ask_inside(asker, ask, now, mark)
    }

    /// A request arrives at a node that is not outside. A held copy is served. Else a request to
    /// the store alone gets 504 (RFC 9111, section 5.2.1.7). Else the node is `Busy`, or a round or
    /// an origin read begins.
    fn ask_inside(
        &mut self,
        asker: Option<u8>,
        ask: Ask,
        now: u64,
        mark: T,
    ) -> Result<Reply<T>, StepFault>
        requires { self.old.state.closed ≡ false }
        ensures same { IsSameNode self.old self.new }
        ensures leads { (key_of : List ℕ → Option (List ℕ)) →
            Leads (asks.ask_comes_to (setting_of self.old key_of) self.old.state asker ask now mark
            false) self.old.state result self.new.state }
    {
        match self.copy_to_serve(&ask, now)? {
            Some(copy) => Ok(self.serve_held(asker, &ask.key, copy, now)),
            None => self.not_held(asker, ask, now, mark),
        }
    }

    /// Serves a copy that is held, which becomes the most recent.
    fn serve_held(&mut self, asker: Option<u8>, key: &Key, copy: WebCopy<T>, now: u64) -> Reply<T>
        ensures same { IsSameNode self.old self.new }
        ensures state { self.new.state
            ≡ state.with_copies self.old.state (to_front key.now self.old.state.copies) }
        ensures reply { result ≡ state.serving None asker
            (Served.Copy copy (state.served_age copy now)) }
    {
        self.copies.refresh(key);
        let age = served_age(&copy, now);
        serves(self.alloc, None, asker, Served::Copy { copy, age })
    }

    /// Handles a request for which no copy may be served.
    fn not_held(
        &mut self,
        asker: Option<u8>,
        ask: Ask,
        now: u64,
        mark: T,
    ) -> Result<Reply<T>, StepFault>
        requires { self.old.state.closed ≡ false }
        ensures same { IsSameNode self.old self.new }
        ensures leads { (key_of : List ℕ → Option (List ℕ)) →
            Leads (asks.not_held (setting_of self.old key_of) self.old.state asker ask now mark)
            self.old.state result self.new.state }
    {
        if self.is_cached_only(asker, &ask) {
            return Ok(serves(self.alloc, None, asker, Served::Status(504)));
        }
        let Some(block) = self.pending.free_block(self.next) else {
            return Err(StepFault::Busy);
        };
        self.begin_ask(asker, ask, block, now, mark)
    }

    /// Whether a request is answered from the store alone: it bears `only-if-cached` (RFC 9111,
    /// section 5.2.1.7), or a sibling sent it (RFC 2187, section 2).
    fn is_cached_only(&self, asker: Option<u8>, ask: &Ask) -> bool
        ensures { (key_of : List ℕ → Option (List ℕ)) →
            result ≡ asks.is_cached_only (setting_of self.now key_of) asker ask.now }
    {
        ask.only_if_cached || is_siblings_ask(&self.roster, self.id, asker)
    }

    /// Begins a round or an origin read for a new request, with this block.
    fn begin_ask(
        &mut self,
        asker: Option<u8>,
        ask: Ask,
        block: u32,
        now: u64,
        mark: T,
    ) -> Result<Reply<T>, StepFault>
        requires open { self.old.state.closed ≡ false }
        requires block { IsBlock block }
        requires absent { IsAbsent self.old.state.pending block }
        ensures same { IsSameNode self.old self.new }
        ensures leads { (key_of : List ℕ → Option (List ℕ)) →
            Leads (asks.begin_ask (setting_of self.old key_of) self.old.state asker ask now mark
            block) self.old.state result self.new.state }
    {
        if ask.no_cache {
            return self.begin_with_read(asker, ask, block, now, mark);
        }
        let round = Round::start(&self.roster, self.id, self.floors.floor(&ask.key));
        if round.asked().is_empty() {
            self.begin_with_read(asker, ask, block, now, mark)
        } else {
            self.begin_with_round(asker, ask, block, round)
        }
    }

    /// Begins an origin read for a new request, with this block. If the roster has no such origin,
    /// serves 502, and the request has ended.
    fn begin_with_read(
        &mut self,
        asker: Option<u8>,
        ask: Ask,
        block: u32,
        now: u64,
        mark: T,
    ) -> Result<Reply<T>, StepFault>
        requires open { self.old.state.closed ≡ false }
        requires block { IsBlock block }
        requires absent { IsAbsent self.old.state.pending block }
        ensures same { IsSameNode self.old self.new }
        ensures leads { (key_of : List ℕ → Option (List ℕ)) →
            Leads (asks.begin_with_read (setting_of self.old key_of) self.old.state asker ask block
            now mark) self.old.state result self.new.state }
    {
        if !has_origin(&self.roster, &ask.key) {
            self.pass(block);
            return Ok(serves(self.alloc, None, asker, Served::Status(502)));
        }
        let asked = origin_ask(self.alloc, &ask)?;
        let serial = serial_of(block, 1);
        let fetch = Fetch::AtOrigin {
            stamp: self.floors.seen(),
            asked: now,
            mark,
        };
        self.wait(asker, ask, block, None, 1, 1, fetch)?;
        Ok(begins(self.alloc, Begin::Read { serial, ask: asked }))
    }

    /// Leaves the block of a request that has ended at once: it is free again, and the next one is
    /// looked for behind it.
    fn pass(&mut self, block: u32)
        requires { IsBlock block }
        ensures same { IsSameNode self.old self.new }
        ensures state { self.new.state ≡ asks.passing self.old.state block }
    {
        let next = block_after(block);
        self.next = next;
    }

    /// Begins a round for a new request, with this block and with queries in the roster's order.
    fn begin_with_round(
        &mut self,
        asker: Option<u8>,
        ask: Ask,
        block: u32,
        round: Round,
    ) -> Result<Reply<T>, StepFault>
        requires open { self.old.state.closed ≡ false }
        requires block { IsBlock block }
        requires absent { IsAbsent self.old.state.pending block }
        requires answers { round.answers ≡ [] }
        ensures same { IsSameNode self.old self.new }
        ensures leads { (key_of : List ℕ → Option (List ℕ)) →
            Leads (asks.begin_round (setting_of self.old key_of) self.old.state asker ask block
            round) self.old.state result self.new.state }
    {
        let serial = serial_of(block, 0);
        let send = queries(self.alloc, &self.roster, serial, &ask.key, round.asked())?;
        self.wait(asker, ask, block, Some(round), 0, 0, Fetch::Nowhere)?;
        Ok(Reply {
            serve: None,
            send,
            begin: Some(Begin::Round { serial }),
        })
    }

    /// Adds a new pending request, with this block.
    fn wait(
        &mut self,
        asker: Option<u8>,
        ask: Ask,
        block: u32,
        round: Option<Round>,
        fetches: u8,
        reads: u8,
        fetch: Fetch<T>,
    ) -> Result<(), AllocError>
        requires open { self.old.state.closed ≡ false }
        requires block { IsBlock block }
        requires absent { IsAbsent self.old.state.pending block }
        requires can_go_on { CanGoOn (record {
          block = block;
          asker = asker;
          ask = ask;
          round = round;
          tried = [];
          fetches = fetches;
          reads = reads;
          fetch = fetch;
        }) }
        ensures same { IsSameNode self.old self.new }
        ensures ok { OnOk result (self.new.state
            ≡ asks.taking self.old.state (record {
              block = block;
              asker = asker;
              ask = ask;
              round = round;
              tried = [];
              fetches = fetches;
              reads = reads;
              fetch = fetch;
            })) }
        ensures err { OnErr result (self.new.state ≡ self.old.state) }
    {
        let pending = Pending {
            block,
            asker,
            ask,
            round,
            tried: Listed::new(Vec::new(self.alloc)),
            fetches,
            reads,
            fetch,
        };
        match self.pending.add(pending) {
            Ok(()) => {
                self.next = block_after(block);
                Ok(())
            }
            Err((_, error)) => Err(error),
        }
    }
}
