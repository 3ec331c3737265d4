//! `Network`: all that was sent in a run, and the requests that wait.
ghost use Rattle.std.specs.Prelude.{◌↔◌, ◌≡◌, List, option_map, IsTrue, OnOk};
ghost use Rattle.values_tables.specs.declared.plain.Tables.{Tables};
ghost use Rattle.node_rules.specs.State.{serial_of as serial_of_begin};
ghost use Rattle.run_rules.specs.Sent.{Network as ANetwork, Waits as AWait, IsSent, IsCallSent};
ghost use Rattle.run_rules.specs.Sent.{answers_by, key_by, waits_by, with_reply, with_clears};
ghost use Rattle.run_rules.specs.Sent.{without_waiting, silence};
ghost use Rattle.run_network.specs.Held.{Holds, HoldsWaits, with_answers, with_waits};

use crate::answers::Answers;
use crate::asks::Asks;
use crate::letters::Letters;
use crate::waits::Waits;
use node_rules::{Begin, Event, Reply, SERIALS, Serve};
use purge_rules::{MasterAnswer, MasterCall, MasterFault, Nodes, Purges};
use roster::Roster;
use std::alloc::{AllocError, Global};
use std::hash::RandomState;
use url_key::Key;

/// All that was sent in a run so far, and the members' requests that wait.
///
/// A contract sees which network of `run_rules` it holds, by `Holds`: all of it, and nothing else.
pub struct Network<'a> {
    letters: Letters,
    asks: Asks<'a>,
    answers: Answers<'a>,
    waits: Waits<'a>,
}

impl<'a> Drop for Network<'a> {
    fn drop(self) {
        let Network {
            letters: _,
            asks: _,
            answers: _,
            waits: _,
        } = self;
    }
}

/// The serial with which something begins.
fn serial_of(begin: &Begin) -> u32
    ensures { result ≡ serial_of_begin begin.now }
{
    match begin {
        Begin::Round { serial } => *serial,
        Begin::Peer { serial, .. } => *serial,
        Begin::Read { serial, .. } => *serial,
    }
}

impl<'a> Network<'a> {
    /// A network in which nothing was sent. `keys` are the keys of its hashes: use random ones, so
    /// that nobody can pick texts whose look-ups are slow. Allocates nothing.
    pub fn new(alloc: Global, keys: RandomState) -> Network<'a>
        ensures { (roster : Tables) → Holds roster result silence }
    {
        Network {
            letters: Letters::new(alloc, keys),
            asks: Asks::new(alloc, keys),
            answers: Answers::new(alloc, keys),
            waits: Waits::new(alloc),
        }
    }

    /// Whether what a node received was sent to it before. True for all that does not come from a
    /// member or from the master.
    pub fn is_sent(&self, roster: &Roster, node: u8, event: &Event<()>) -> bool
        ensures { (sent : ANetwork) → Holds roster.now self.now sent →
            IsTrue result ↔ IsSent roster.now sent node event.now }
    {
        match event {
            Event::Datagram { from, message, .. } => {
                let message = message.message();
                !roster.is_own(*from) || self.letters.has_letter(*from, node, message)
            }
            Event::PeerAsk { asker, ask, .. } => self.asks.has_ask(*asker, node, ask),
            Event::PeerAnswer {
                peer,
                key,
                answer,
                ..
            } => self.answers.has_answer(*peer, node, key, answer),
            _ => true,
        }
    }

    /// Whether the acknowledgement that a call of the master counts was sent before. True for other
    /// calls.
    pub fn is_call_sent(&self, call: &MasterCall) -> bool
        ensures { (roster : Tables) (sent : ANetwork) → Holds roster self.now sent →
            IsTrue result ↔ IsCallSent roster sent call.now }
    {
        match call {
            MasterCall::Acknowledge {
                member,
                trans,
                code,
            } => self.letters.has_acknowledged(*member, *trans, *code),
            _ => true,
        }
    }

    /// The key of the member's request that is answered: the one that waits as the block, or else
    /// the event, if it is one.
    fn key_for(&self, node: u8, event: &'a Event<()>, waiter: Option<u32>) -> Option<&'a Key>
        ensures { (waiting : List AWait) → HoldsWaits self.now.waits waiting →
            option_map (λ k. k.now) result ≡ key_by waiting node event.now waiter }
    {
        match (waiter, event) {
            (Some(block), _) => self.waits.key(node, block),
            (None, Event::PeerAsk { ask, .. }) => Some(&ask.key),
            (None, _) => None,
        }
    }

    /// Adds the response of what a node serves, if a member asked.
    fn answer(
        &mut self,
        alloc: Global,
        node: u8,
        event: &'a Event<()>,
        serve: &'a Option<Serve<()>>,
    ) -> Result<(), AllocError>
        ensures { OnOk result ((roster : Tables) (sent : ANetwork) → Holds roster self.old sent →
            Holds roster self.new (with_answers sent
            (answers_by sent.waiting node event.now serve.now))) }
    {
        match serve {
            Some(serve) => {
                let key = self.key_for(node, event, serve.waiter);
                self.answers.post(alloc, node, serve, key)
            }
            None => Ok(()),
        }
    }

    /// Notes that the event waits, if it is a member's request and begins something.
    fn wait(
        &mut self,
        alloc: Global,
        node: u8,
        event: &'a Event<()>,
        begin: &Option<Begin>,
    ) -> Result<(), AllocError>
        ensures { OnOk result ((roster : Tables) (sent : ANetwork) → Holds roster self.old sent →
            Holds roster self.new (with_waits sent (waits_by node event.now begin.now))) }
    {
        match (event, begin) {
            (Event::PeerAsk { ask, .. }, Some(begin)) => {
                self.waits
                    .add(alloc, node, serial_of(begin) / SERIALS, &ask.key)
            }
            _ => Ok(()),
        }
    }

    /// Adds all that a node's reply to an event sends.
    ///
    /// Fault: an allocation failed; nothing is promised of the network then.
    pub fn send(
        &mut self,
        alloc: Global,
        roster: &Roster,
        node: u8,
        event: &'a Event<()>,
        reply: &'a Reply<()>,
    ) -> Result<(), AllocError>
        ensures { OnOk result ((sent : ANetwork) → Holds roster.now self.old sent →
            Holds roster.now self.new (with_reply roster.now sent node event.now reply.now)) }
    {
        self.letters
            .post(alloc, roster, node, reply.send.as_slice())?;
        self.asks.post(alloc, node, &reply.begin)?;
        self.answer(alloc, node, event, &reply.serve)?;
        self.wait(alloc, node, event, &reply.begin)
    }

    /// Drops what waits at a node. Allocates nothing.
    pub fn forget(&mut self, node: u8)
        ensures { (roster : Tables) (sent : ANetwork) → Holds roster self.old sent →
            Holds roster self.new (without_waiting sent node) }
    {
        self.waits.forget(node);
    }

    /// Adds all that a call of the master sends, where it has these purges: the CLR of a new purge
    /// to each member that it needs, and that of an admission to the admitted member.
    ///
    /// Fault: an allocation failed; nothing is promised of the network then.
    pub fn clear(
        &mut self,
        alloc: Global,
        roster: &Roster,
        purges: &Purges,
        call: &MasterCall,
        answer: &Result<MasterAnswer, MasterFault>,
    ) -> Result<(), AllocError>
        ensures { OnOk result ((sent : ANetwork) → Holds roster.now self.old sent →
            Holds roster.now self.new
            (with_clears roster.now purges.now.admissions sent call.now answer.now)) }
    {
        match (call, answer) {
            (MasterCall::Issue(key), Ok(MasterAnswer::Issue(number))) => {
                let needed = purges.needed(&Nodes::of(roster), *number);
                self.letters.clear_all(alloc, roster, needed, *number, key)
            }
            (MasterCall::Admit(member), Ok(MasterAnswer::Admit(number))) => {
                self.letters.admit(alloc, roster, *member, *number)
            }
            _ => Ok(()),
        }
    }
}
