ghost use Rattle.std.specs.Prelude.{◌≡◌, ◌≤◌, ◌==◌, true, length, find, option_map, Some, None};
ghost use Rattle.std.specs.Prelude.{if◌then◌else◌};
ghost use Rattle.roster.specs.Lookups.{is_member, peers_of as peers_of_member};
ghost use Rattle.peer_chooser.specs.Round.{RoundText, started, answered, ended};
ghost use Rattle.peer_chooser.specs.Round.{has_answered as has_answered_in};
ghost use Rattle.peer_chooser.specs.Choice.{choice};

use crate::choosing::{choose, has_answered, may_ask};
use crate::{FirstAnswer, Said, Source};
use roster::{Peer, Role, Roster, Udp};
use std::marker::Model;

/// The most peers of a member.
const MOST_PEERS: usize = 23;

/// Fills the unused places of `asked`.
const NOBODY: Peer = Peer {
    id: 0,
    role: Role::Sibling,
    by: Udp::Icp,
};

/// Fills the unused places of `answers`.
const NOTHING: FirstAnswer = FirstAnswer {
    peer: NOBODY,
    said: Said::Miss,
};

/// One set of queries to the peers of a member, and their answers.
///
/// A contract sees the peers asked, their first answers in order of arrival, and whether the round
/// has expired. A `Round` holds at most 23 answers.
#[derive(Drop)]
pub struct Round {
    asked: [Peer; MOST_PEERS],
    asked_count: usize,
    answers: [FirstAnswer; MOST_PEERS],
    answer_count: usize,
    has_expired: bool,
}

impl Model for Round {
    ghost use Rattle.std.specs.Prelude.{take};
    ghost use Rattle.peer_chooser.specs.Round.{RoundText};
    ghost use Rattle.peer_chooser.specs.Room.{HasRoom};

    ghost Value = { RoundText };

    ghost view = { λ r. record {
      asked = take r.asked_count r.asked;
      answers = take r.answer_count r.answers;
      expired = r.has_expired;
    } };

    ghost invariant = { λ r. HasRoom r.asked r.asked_count r.answers r.answer_count };
}

impl Round {
    /// Starts a round for the member `id`, about a URL with this floor (the greatest number of a
    /// purge of it).
    ///
    /// It asks all peers of the member, foreign caches only where the floor is 0. `id` must be that
    /// of a member. Allocates nothing.
    pub fn start(roster: &Roster, id: u8, floor: u32) -> Round
        requires { is_member roster.now id ≡ true }
        ensures { result ≡ started (peers_of_member roster.now id) floor }
    {
        Round::begin(peers_of(roster, id), floor)
    }

    /// Starts a round with those of these peers that may be asked at this floor.
    pub(crate) fn begin(peers: &[Peer], floor: u32) -> Round
        requires { length peers.now ≤ 23 }
        ensures { result ≡ started peers.now floor }
    {
        let mut asked = [NOBODY; MOST_PEERS];
        let mut asked_count = 0;
        for peer in peers {
            if may_ask(floor, *peer) {
                asked[asked_count] = *peer;
                asked_count += 1;
            }
        }
        Round {
            asked,
            asked_count,
            answers: [NOTHING; MOST_PEERS],
            answer_count: 0,
            has_expired: false,
        }
    }

    /// Copies the round, which has at most 23 answers. Allocates nothing.
    pub fn copy(&self) -> Round
        ensures value { result ≡ self.now }
        ensures few { length self.now.answers ≤ 23 }
    {
        Round {
            asked: self.asked,
            asked_count: self.asked_count,
            answers: self.answers,
            answer_count: self.answer_count,
            has_expired: self.has_expired,
        }
    }

    /// The peers asked, in the roster's order. Allocates nothing.
    pub fn asked(&self) -> &[Peer]
        ensures { result.now ≡ self.now.asked }
    {
        &self.asked[..self.asked_count]
    }

    /// The first answers, in order of arrival. Allocates nothing.
    pub fn answers(&self) -> &[FirstAnswer]
        ensures { result.now ≡ self.now.answers }
    {
        &self.answers[..self.answer_count]
    }

    /// Whether the time for answers is over.
    pub fn has_expired(&self) -> bool
        ensures { result ≡ self.now.expired }
    {
        self.has_expired
    }

    /// Records an answer of the peer with this id. Its first answer counts, even after the round
    /// has expired.
    ///
    /// A later answer changes nothing, nor does that of a cache that was not asked. Allocates
    /// nothing.
    pub fn answer(&mut self, peer: u8, said: Said)
        ensures { self.new ≡ answered self.old peer said }
    {
        if let Some(peer) = awaited(self.asked(), self.answers(), peer) {
            self.answers[self.answer_count] = FirstAnswer { peer, said };
            self.answer_count += 1;
        }
    }

    /// Ends the time for answers. Allocates nothing.
    pub fn expire(&mut self)
        ensures { self.new ≡ ended self.old }
    {
        self.has_expired = true;
    }

    /// Chooses where the request goes next. `floor` may have risen since the round started; `tried`
    /// lists the ids of the peers that were tried already.
    ///
    /// The choice is the first that applies, in order of arrival among answers:
    ///
    /// 1. a peer that has a copy, whose stamp is unknown or at least `floor`;
    /// 2. `Wait`, while some peer has not answered and the round has not expired;
    /// 3. a parent that has no copy;
    /// 4. the origin.
    ///
    /// Tried peers are passed over, and foreign caches where `floor` is above 0. Allocates nothing.
    pub fn next(&self, floor: u32, tried: &[u8]) -> Source
        ensures { result ≡ choice self.now floor tried.now }
    {
        choose(self.asked(), self.answers(), self.has_expired, floor, tried)
    }
}

/// The peers of a member. `id` must be that of a member.
fn peers_of(roster: &Roster, id: u8) -> &[Peer]
    requires { is_member roster.now id ≡ true }
    ensures value { result.now ≡ peers_of_member roster.now id }
    ensures few { length result.now ≤ 23 }
{
    roster.peers(id)
}

/// The peer with this id, if it was asked and has not answered.
fn awaited(asked: &[Peer], answers: &[FirstAnswer], id: u8) -> Option<Peer>
    ensures { result ≡ (if has_answered_in answers.now id then None
        else find (λ p. p.id == id) asked.now) }
{
    if has_answered(answers, id) {
        None
    } else {
        peer_of(asked, id).copied()
    }
}

/// The peer with this id, if there is one.
fn peer_of(asked: &[Peer], id: u8) -> Option<&Peer>
    ensures { option_map (λ p. p.now) result ≡ find (λ p. p.id == id) asked.now }
{
    asked.iter().find(|peer| peer.id == id)
}
