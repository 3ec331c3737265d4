//! The state of a run after some of its notes, and the judgement on the next one.
ghost use Rattle.std.specs.Prelude.{◌≡◌, ◌↔◌, ◌<◌, ℕ, [], None, map, length, IsTrue, IfSome, IfOk};
ghost use Rattle.std.specs.Prelude.{OnOk};
ghost use Rattle.std.specs.List.{list_any};
ghost use Rattle.values_tables.specs.declared.plain.Tables.{Tables};
ghost use Rattle.run_rules.specs.Sent.{Network as ANetwork, silence};
ghost use Rattle.run_rules.specs.Notes as notes;
ghost use Rattle.run_rules.specs.Board.{Standing as AStanding, standing_at, with_standing};
ghost use Rattle.run_rules.specs.Board.{new_board};
ghost use Rattle.run_rules.specs.Judging as judging;
ghost use Rattle.run_rules.specs.Judging.{ClosesAs, IsOfKey, network_after};
ghost use Rattle.run_rules.specs.Verdict.{is_astray as is_astray_post, ending as ending_of};
ghost use Rattle.run_network.specs.Held.{Holds};
ghost use Rattle.run_notes.specs.Held.{note_of};
ghost use Rattle.run_check.specs.Held.{standing_of, IsSound};
ghost use Rattle.run_check.specs.Boards.{post_of, posts_of, place_of as place_in_posts, board_of};
ghost use Rattle.run_check.specs.Boards.{AreMemberNodes, IsBoard, IsJudged, opened_network};

use crate::ledger::Ledger;
use crate::opening::{may_close, opens};
use crate::standing::Standing;
use crate::stepping::steps;
use floor_rules::Floors;
use node_book::NodeEntry;
use node_rules::NodeState;
use purge_master::MasterEntry;
use purge_rules::MasterCall;
use roster::Roster;
use run_network::Network;
use run_notes::Note;
use run_rules::{Cause, Verdict};
use std::alloc::{AllocError, Global};
use std::hash::RandomState;
use std::mem::replace;

/// A node that has records, and its standing.
#[derive(Drop)]
pub(crate) struct Post {
    pub id: u8,
    pub standing: Standing,
}

/// The nodes that have records so far, in the order of their first records.
#[derive(Drop)]
pub(crate) struct Posts {
    posts: Vec<Post>,
}

/// The state of a run: each node's standing, the master's purges, and what was sent. `keys` are the
/// keys of the hashes by which nodes find their copies.
pub(crate) struct Board<'a> {
    keys: RandomState,
    posts: Posts,
    ledger: Ledger,
    network: Network<'a>,
}

impl<'a> Drop for Board<'a> {
    fn drop(self) {
        let Board {
            keys: _,
            posts: _,
            ledger: _,
            network: _,
        } = self;
    }
}

/// The index of the node with this id, if it has records.
fn place_of(posts: &[Post], id: u8) -> Option<usize>
    ensures place { result ≡ place_in_posts id (map post_of posts.now) }
    ensures below { IfSome result (λ place. place < length posts.now) }
{
    match posts {
        [] => None,
        [first, rest @ ..] => {
            if first.id == id {
                return Some(0);
            }
            match place_of(rest, id) {
                Some(place) => Some(place + 1),
                None => None,
            }
        }
    }
}

/// Whether nothing is known of a node with this standing.
fn is_astray(standing: &Standing) -> bool
    ensures { result ≡ judging.is_astray (standing_of standing.now) }
{
    matches!(standing, Standing::Astray)
}

/// Whether one of these nodes is astray.
fn is_any_astray(posts: &[Post]) -> bool
    ensures { result ≡ list_any is_astray_post (map post_of posts.now) }
{
    match posts {
        [] => false,
        [first, rest @ ..] => is_astray(&first.standing) || is_any_astray(rest),
    }
}

impl Posts {
    /// No node has a record. Allocates nothing.
    fn new(alloc: Global) -> Posts
        ensures { posts_of result ≡ [] }
    {
        Posts {
            posts: Vec::new(alloc),
        }
    }

    /// Takes out the standing of the node with this id; `put` puts one back.
    fn take(&mut self, id: u8) -> Standing
        ensures standing { standing_of result ≡ standing_at (posts_of self.old) id }
        ensures others { (standing : AStanding) →
            with_standing (posts_of self.new) id standing
            ≡ with_standing (posts_of self.old) id standing }
        ensures sound { (roster : Tables) → AreMemberNodes roster self.old →
            IsSound roster id result }
        ensures nodes { (roster : Tables) → AreMemberNodes roster self.old →
            AreMemberNodes roster self.new }
    {
        match place_of(self.posts.as_slice(), id) {
            Some(place) => replace(&mut self.posts[place].standing, Standing::Astray),
            None => Standing::New,
        }
    }

    /// Puts the standing of the node with this id.
    fn put(&mut self, id: u8, standing: Standing) -> Result<(), AllocError>
        ensures posts { OnOk result (posts_of self.new
            ≡ with_standing (posts_of self.old) id (standing_of standing)) }
        ensures nodes { OnOk result ((roster : Tables) → AreMemberNodes roster self.old →
            IsSound roster id standing → AreMemberNodes roster self.new) }
    {
        match place_of(self.posts.as_slice(), id) {
            Some(place) => self.posts[place].standing = standing,
            None => self.posts.push(Post { id, standing })?,
        }
        Ok(())
    }

    /// Whether the record of the node with this id may close in this state.
    fn may_close(&self, id: u8, state: &NodeState<()>) -> Result<bool, AllocError>
        ensures { IfOk result (λ may. IsTrue may ↔ ClosesAs
            (standing_at (posts_of self.now) id) state.now) }
    {
        match place_of(self.posts.as_slice(), id) {
            Some(place) => may_close(&self.posts[place].standing, state),
            None => Ok(false),
        }
    }
}

impl<'a> Board<'a> {
    /// The state at the start of a run: nothing is stored and nothing was sent. `keys` are the keys
    /// of the hashes of nodes and network. Allocates nothing.
    pub(crate) fn new(alloc: Global, keys: RandomState, roster: &Roster) -> Board<'a>
        ensures board { board_of result silence ≡ new_board }
        ensures holds { IsBoard roster.now result silence }
    {
        Board {
            keys,
            posts: Posts::new(alloc),
            ledger: Ledger::new(alloc, roster),
            network: Network::new(alloc, keys),
        }
    }

    /// Adds what a node's entry sends. At a node that is closed, drops what waits.
    fn send(
        &mut self,
        alloc: Global,
        roster: &Roster,
        node: u8,
        entry: &'a NodeEntry,
        standing: &Standing,
    ) -> Result<(), AllocError>
        ensures sent { OnOk result ((sent : ANetwork) → Holds roster.now self.old.network sent →
            Holds roster.now self.new.network
            (network_after roster.now sent node entry.now (standing_of standing.now))) }
        ensures posts { OnOk result (self.new.posts ≡ self.old.posts) }
        ensures ledger { OnOk result (self.new.ledger ≡ self.old.ledger) }
    {
        if let Standing::Shut(_) = standing {
            self.network.forget(node);
            return Ok(());
        }
        match &entry.outcome {
            Ok(reply) => self.network.send(alloc, roster, node, &entry.event, reply),
            Err(_) => Ok(()),
        }
    }

    /// Drops what waits at a node whose record opens, if no request is pending there and the node
    /// is not astray.
    fn forget(&mut self, node: u8, pending: usize, after: &Standing)
        ensures network { (roster : Tables) (sent : ANetwork) → Holds roster self.old.network sent →
            Holds roster self.new.network (opened_network sent node pending
            (standing_of after.now)) }
        ensures posts { self.new.posts ≡ self.old.posts }
        ensures ledger { self.new.ledger ≡ self.old.ledger }
    {
        if pending == 0 && !is_astray(after) {
            self.network.forget(node);
        }
    }

    /// A record opens. A record that may not open so makes its node astray.
    fn opens(
        &mut self,
        alloc: Global,
        roster: &Roster,
        node: u8,
        state: &NodeState<()>,
    ) -> Result<(), AllocError>
        ensures { OnOk result ((sent : ANetwork) → IsBoard roster.now self.old sent →
            IsJudged roster.now (board_of self.old sent)
            (notes.Opens node state.now) self.new None) }
    {
        let before = self.posts.take(node);
        let after = opens(alloc, self.keys, roster, node, before, state)?;
        self.forget(node, state.pending.as_slice().len(), &after);
        self.posts.put(node, after)?;
        Ok(())
    }

    /// A node has an entry. Returns its flaw, if it has one. What it received must have been sent
    /// to it before, even if nothing is known of the node.
    fn steps(
        &mut self,
        alloc: Global,
        roster: &Roster,
        node: u8,
        entry: &'a NodeEntry,
        is_closed: bool,
        kept: &Floors,
    ) -> Result<Option<Cause>, AllocError>
        ensures { IfOk result (λ flaw. (sent : ANetwork) → IsBoard roster.now self.old sent →
            IsJudged roster.now (board_of self.old sent)
            (notes.Steps node entry.now is_closed kept.now) self.new flaw) }
    {
        if !self.network.is_sent(roster, node, &entry.event) {
            return Ok(Some(Cause::NotSent));
        }
        let standing = self.posts.take(node);
        match steps(alloc, roster, node, standing, entry, is_closed, kept)? {
            Ok(standing) => {
                self.send(alloc, roster, node, entry, &standing)?;
                self.posts.put(node, standing)?;
                Ok(None)
            }
            Err(cause) => Ok(Some(cause)),
        }
    }

    /// A record closes. Returns its flaw, if it has one.
    fn closes(&self, node: u8, state: &NodeState<()>) -> Result<Option<Cause>, AllocError>
        ensures { IfOk result (λ flaw. (roster : Tables) (place : ℕ) (sent : ANetwork) →
            IsBoard roster self.now sent →
            IsJudged roster (board_of self.now sent)
            (notes.Closes node place state.now) self.now flaw) }
    {
        if self.posts.may_close(node, state)? {
            Ok(None)
        } else {
            Ok(Some(Cause::OtherState))
        }
    }

    /// The master has an entry. Returns its flaw, if it has one.
    fn calls(
        &mut self,
        alloc: Global,
        roster: &Roster,
        entry: &MasterEntry,
        is_closed: bool,
    ) -> Result<Option<Cause>, AllocError>
        ensures { IfOk result (λ flaw. (sent : ANetwork) → IsBoard roster.now self.old sent →
            IsJudged roster.now (board_of self.old sent)
            (notes.Calls entry.now is_closed) self.new flaw) }
    {
        let _key = purged(&entry.call);
        if !self.network.is_call_sent(&entry.call) {
            return Ok(Some(Cause::NotSent));
        }
        if !self.ledger.take(alloc, entry, is_closed)? {
            return Ok(Some(Cause::OtherReply));
        }
        let purges = self.ledger.purges();
        self.network
            .clear(alloc, roster, purges, &entry.call, &entry.answer)?;
        Ok(None)
    }

    /// Takes the next note. Returns its flaw, if it has one. Then the state is as it was if a
    /// record closes, and else nothing is promised of it.
    pub(crate) fn judge(
        &mut self,
        alloc: Global,
        roster: &Roster,
        note: Note<'a>,
    ) -> Result<Option<Cause>, AllocError>
        ensures { IfOk result (λ flaw. (sent : ANetwork) → IsBoard roster.now self.old sent →
            IsJudged roster.now (board_of self.old sent) (note_of note.entry) self.new flaw) }
    {
        match note {
            Note::Opens { node, state } => {
                self.opens(alloc, roster, node, state)?;
                Ok(None)
            }
            Note::Steps {
                node,
                entry,
                is_closed,
                kept,
            } => self.steps(alloc, roster, node, entry, is_closed, kept),
            Note::Closes { node, state, .. } => self.closes(node, state),
            Note::Calls { entry, is_closed } => self.calls(alloc, roster, entry, is_closed),
        }
    }

    /// The verdict at the end of a run in which no note has a flaw.
    pub(crate) fn ending(&self) -> Verdict
        ensures { (sent : ANetwork) → result ≡ ending_of (board_of self.now sent) }
    {
        if is_any_astray(self.posts.posts.as_slice()) {
            Verdict::No {
                place: 0,
                cause: Cause::OtherState,
            }
        } else {
            Verdict::Yes
        }
    }
}

/// The text of the key that a call purges, if it issues a purge.
fn purged(call: &MasterCall) -> Option<&[u8]>
    ensures { IsOfKey call.now }
{
    match call {
        MasterCall::Issue(key) => Some(key.text()),
        _ => None,
    }
}
