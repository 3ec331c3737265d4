//! Responses that members sent to members.
ghost use Rattle.std.specs.Prelude.{◌≡◌, ◌⊎◌, ◌↔◌, [], ◌++◌, List, option_map, IsTrue, OnOk};
ghost use Rattle.run_rules.specs.Sent.{SentAnswer as AnAnswer, answer_for, text_of};
ghost use Rattle.run_network.specs.Bags.{Has};
ghost use Rattle.run_network.specs.Written.{written_text};
ghost use Rattle.run_network.specs.Held.{answer_in, HasAnswer, HoldsAnswers};

use crate::bags::Bags;
use crate::prints::answer_print;
use crate::written::Written;
use http_messages::Answer;
use node_copies::same_key;
use node_rules::{Serve, Served};
use std::alloc::{AllocError, Global};
use std::hash::RandomState;
use url_key::Key;

/// A response that a member sent to a member, for the key that was requested.
#[derive(Drop)]
pub struct SentAnswer<'a> {
    sender: u8,
    receiver: u8,
    key: &'a Key,
    served: &'a Served<()>,
}

/// The responses that were sent.
///
/// A contract sees them by `HasAnswer`.
#[derive(Drop)]
pub struct Answers<'a> {
    keys: RandomState,
    bags: Bags<SentAnswer<'a>>,
}

/// Whether a response that was sent is this one.
fn is_answer(
    sent: &SentAnswer<'_>,
    sender: u8,
    receiver: u8,
    key: &Key,
    answer: &Written<'_>,
) -> bool
    ensures { IsTrue result ↔ (answer_in sent.now
        ≡ record {
          sender = sender;
          receiver = receiver;
          key = key.now;
          answer =
              written_text answer.now;
        }) }
{
    sent.sender == sender
        && sent.receiver == receiver
        && same_key(sent.key, key)
        && Written::of_served(sent.served).is(answer)
}

/// Whether this response is among these.
fn has_answer_in(
    answers: &[SentAnswer<'_>],
    sender: u8,
    receiver: u8,
    key: &Key,
    answer: &Written<'_>,
) -> bool
    ensures { IsTrue result ↔ Has answer_in answers.now
        (record {
          sender = sender;
          receiver = receiver;
          key = key.now;
          answer =
              written_text answer.now;
        }) }
{
    for sent in answers {
        if is_answer(sent, sender, receiver, key, answer) {
            return true;
        }
    }
    false
}

impl<'a> Answers<'a> {
    /// No responses. Allocates nothing.
    pub(crate) fn new(alloc: Global, keys: RandomState) -> Answers<'a>
        ensures { HoldsAnswers result [] }
    {
        Answers {
            keys,
            bags: Bags::new(alloc),
        }
    }

    /// Whether this response was sent.
    pub(crate) fn has_answer(&self, sender: u8, receiver: u8, key: &Key, answer: &Answer) -> bool
        ensures { IsTrue result ↔ HasAnswer self.now
            (record { sender = sender; receiver = receiver; key = key.now; answer = answer.now }) }
    {
        let answer = Written::of(answer);
        let print = answer_print(self.keys, sender, receiver, key.text(), &answer);
        has_answer_in(self.bags.bag(print), sender, receiver, key, &answer)
    }

    /// Adds what is served, as a response, unless it is held already.
    fn add(
        &mut self,
        alloc: Global,
        sender: u8,
        receiver: u8,
        key: &'a Key,
        served: &'a Served<()>,
    ) -> Result<(), AllocError>
        ensures { OnOk result ((a : AnAnswer) →
            HasAnswer self.new a ↔ (HasAnswer self.old a
            ⊎ (record {
              sender = sender;
              receiver = receiver;
              key = key.now;
              answer =
                  text_of served.now;
            } ≡ a))) }
    {
        let written = Written::of_served(served);
        let print = answer_print(self.keys, sender, receiver, key.text(), &written);
        if has_answer_in(self.bags.bag(print), sender, receiver, key, &written) {
            return Ok(());
        }
        let sent = SentAnswer {
            sender,
            receiver,
            key,
            served,
        };
        self.bags.put(alloc, print, sent)
    }

    /// Adds what a member serves, if a member asked, for the key that was requested.
    pub(crate) fn post(
        &mut self,
        alloc: Global,
        node: u8,
        serve: &'a Serve<()>,
        key: Option<&'a Key>,
    ) -> Result<(), AllocError>
        ensures { OnOk result ((sent : List AnAnswer) → HoldsAnswers self.old sent →
            HoldsAnswers self.new (sent ++ answer_for node serve.now.asker serve.now.served
            (option_map (λ k. k.now) key.entry))) }
    {
        match (serve.asker, key) {
            (Some(asker), Some(key)) => self.add(alloc, node, asker, key, &serve.served),
            _ => Ok(()),
        }
    }
}
