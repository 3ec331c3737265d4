//! Requests that members sent to members.
ghost use Rattle.std.specs.Prelude.{◌≡◌, ◌⊎◌, ◌↔◌, [], ◌++◌, List, IsTrue, OnOk};
ghost use Rattle.run_rules.specs.Sent.{SentAsk as AnAsk, asks_by};
ghost use Rattle.run_network.specs.Bags.{Has};
ghost use Rattle.run_network.specs.Held.{ask_in, HasAsk, HoldsAsks};

use crate::bags::Bags;
use crate::prints::ask_print;
use http_messages::Ask;
use node_copies::same_ask;
use node_rules::Begin;
use roster::is_foreign;
use std::alloc::{AllocError, Global};
use std::hash::RandomState;

/// A request that a member sent to a member.
#[derive(Drop)]
pub struct SentAsk<'a> {
    sender: u8,
    receiver: u8,
    ask: &'a Ask,
}

/// The requests that were sent.
///
/// A contract sees them by `HasAsk`.
#[derive(Drop)]
pub struct Asks<'a> {
    keys: RandomState,
    bags: Bags<SentAsk<'a>>,
}

/// Whether a request that was sent is this one.
fn is_ask(sent: &SentAsk<'_>, sender: u8, receiver: u8, ask: &Ask) -> bool
    ensures { IsTrue result ↔ (ask_in sent.now
        ≡ record { sender = sender; receiver = receiver; ask = ask.now }) }
{
    sent.sender == sender && sent.receiver == receiver && same_ask(sent.ask, ask)
}

/// Whether this request is among these.
fn has_ask_in(asks: &[SentAsk<'_>], sender: u8, receiver: u8, ask: &Ask) -> bool
    ensures { IsTrue result ↔ Has ask_in asks.now
        (record { sender = sender; receiver = receiver; ask = ask.now }) }
{
    for sent in asks {
        if is_ask(sent, sender, receiver, ask) {
            return true;
        }
    }
    false
}

impl<'a> Asks<'a> {
    /// No requests. Allocates nothing.
    pub(crate) fn new(alloc: Global, keys: RandomState) -> Asks<'a>
        ensures { HoldsAsks result [] }
    {
        Asks {
            keys,
            bags: Bags::new(alloc),
        }
    }

    /// Whether this request was sent.
    pub(crate) fn has_ask(&self, sender: u8, receiver: u8, ask: &Ask) -> bool
        ensures { IsTrue result ↔ HasAsk self.now
            (record { sender = sender; receiver = receiver; ask = ask.now }) }
    {
        let print = ask_print(self.keys, sender, receiver, ask.key.text());
        has_ask_in(self.bags.bag(print), sender, receiver, ask)
    }

    /// Adds a request that is not held yet.
    fn put(&mut self, alloc: Global, sent: SentAsk<'a>) -> Result<(), AllocError>
        ensures { OnOk result ((a : AnAsk) →
            HasAsk self.new a ↔ (HasAsk self.old a ⊎ (ask_in sent.entry ≡ a))) }
    {
        let print = ask_print(self.keys, sent.sender, sent.receiver, sent.ask.key.text());
        self.bags.put(alloc, print, sent)
    }

    /// Adds a request, unless it is held already.
    fn add(
        &mut self,
        alloc: Global,
        sender: u8,
        receiver: u8,
        ask: &'a Ask,
    ) -> Result<(), AllocError>
        ensures { OnOk result ((a : AnAsk) →
            HasAsk self.new a ↔ (HasAsk self.old a
            ⊎ (record { sender = sender; receiver = receiver; ask = ask.now } ≡ a))) }
    {
        if self.has_ask(sender, receiver, ask) {
            return Ok(());
        }
        self.put(
            alloc,
            SentAsk {
                sender,
                receiver,
                ask,
            },
        )
    }

    /// Adds what a member begins, if it is a fetch from a member.
    pub(crate) fn post(
        &mut self,
        alloc: Global,
        node: u8,
        begin: &'a Option<Begin>,
    ) -> Result<(), AllocError>
        ensures { OnOk result ((sent : List AnAsk) → HoldsAsks self.old sent →
            HoldsAsks self.new (sent ++ asks_by node begin.now)) }
    {
        match begin {
            Some(Begin::Peer { peer, ask, .. }) => {
                if is_foreign(*peer) {
                    Ok(())
                } else {
                    self.add(alloc, node, *peer, ask)
                }
            }
            _ => Ok(()),
        }
    }
}
