//! A step of a node, with all that its reply sends.
ghost use Rattle.std.specs.Prelude.{◌≡◌, ◌≤◌, ◌<◌, length, ◌==◌, ◌&&◌, true, [], map, find, Option};
ghost use Rattle.std.specs.Prelude.{Some, None, IfOk, OnOk};
ghost use Rattle.std.specs.List.{cons_option};
ghost use Rattle.http_messages.specs.Field.{field_text};
ghost use Rattle.roster.specs.Lookups.{member_of as member_by_id};
ghost use Rattle.node_rules.specs.Arrivals.{is_gateway_fault};
ghost use Rattle.world_rules.specs.World as world;
ghost use Rattle.world_rules.specs.Asked.{block_begun as begun_block};
ghost use Rattle.world_rules.specs.Consequence.{NodeSteps};
ghost use Rattle.hierarchy_world.specs.Parts.{IsSound, IsPlace, IsTaken, Adds};
ghost use Rattle.hierarchy_world.specs.Posted.{IsWritten, IsWrittenIn, IsWrittenBy};
ghost use Rattle.hierarchy_world.specs.Posted.{answered as answered_by, answers_by, waits_by};
ghost use Rattle.hierarchy_world.specs.Posted.{serial_of};

use crate::network::{Arrived, Datagram, PeerAnswer, PeerAsk, Waiting};
use crate::parts::Parts;
use crate::telling::Seen;
use http_messages::{Answer, Body, Field, Fields};
use node_rules::{Begin, Event, Message, Outgoing, Reply, SERIALS, Sent, Serve, Served, StepFault};
use object_store::WebCopy;
use roster::{Cache, address_by, is_foreign};
use std::alloc::{AllocError, Global};
use world_rules::WorldFault;

/// A copy of a message.
fn copy_of_message(alloc: Global, message: &Message) -> Result<Message, AllocError>
    ensures { IfOk result (λ copy. copy ≡ message.now) }
{
    Ok(match message {
        Message::Icp(message) => Message::Icp(message.copy(alloc)?),
        Message::Htcp(message) => Message::Htcp(message.copy(alloc)?),
    })
}

/// The datagram of a member's message to be sent.
fn datagram_from(alloc: Global, cache: &Cache, sent: &Outgoing) -> Result<Datagram, AllocError>
    ensures { IfOk result (λ made. made ≡ world.datagram_from cache.now sent.now) }
{
    let message = sent.message.message();
    Ok(Datagram {
        sender: address_by(message.protocol(), cache),
        receiver: sent.to,
        message: Sent::new(copy_of_message(alloc, message)?),
    })
}

/// The datagrams of a member's messages to be sent.
fn datagrams_from(
    alloc: Global,
    cache: &Cache,
    sent: &[Outgoing],
) -> Result<Vec<Datagram>, AllocError>
    ensures { IfOk result (λ made. made.items ≡ map (world.datagram_from cache.now) sent.now) }
{
    let mut made = Vec::with_capacity(alloc, sent.len())?;
    for outgoing in sent {
        made.push(datagram_from(alloc, cache, outgoing)?)?;
    }
    Ok(made)
}

/// A copy of a list of fields.
fn copy_of_fields(alloc: Global, fields: &[Field]) -> Result<Fields, AllocError>
    ensures { IfOk result (λ copy. copy ≡ map field_text fields.now) }
{
    let mut copy = Vec::with_capacity(alloc, fields.len())?;
    for field in fields {
        copy.push(field.copy()?)?;
    }
    Ok(Fields::new(alloc, copy)?)
}

/// The response to a member that holds a copy, with this age in seconds and the copy's stamp.
#[tactic(auto, using(crate::proofs::Writing::writable_aged))]
fn answer_of_copy(alloc: Global, copy: &WebCopy<u64>, age: u64) -> Result<Answer, AllocError>
    requires { age ≤ 2147483648 }
    ensures { IfOk result (λ answer. answer ≡ world.answer_of_copy copy.now age) }
{
    let fields = copy_of_fields(alloc, copy.answer.fields())?;
    let body = Body::from_slice(alloc, copy.answer.body())?;
    let status = copy.answer.status();
    match Answer::new(status, fields, Some(age as u32), Some(copy.stamp), body) {
        Some(answer) => Ok(answer),
        None => unreachable!(),
    }
}

/// The response to a member that is a bare status.
#[tactic(auto, using(crate::proofs::Writing::writable_status))]
fn answer_of_status(alloc: Global, status: u16) -> Result<Answer, AllocError>
    requires { is_gateway_fault status ≡ true }
    ensures { IfOk result (λ answer. answer ≡ world.answer_of_status status) }
{
    let fields = Fields::new(alloc, Vec::new(alloc))?;
    match Answer::new(status, fields, None, None, Body::empty()) {
        Some(answer) => Ok(answer),
        None => unreachable!(),
    }
}

/// What is served, as the response to a member.
fn answer_of(alloc: Global, served: &Served<u64>) -> Result<Answer, AllocError>
    requires { IsWritten served.now }
    ensures { IfOk result (λ answer. answer ≡ world.answer_of served.now) }
{
    match served {
        Served::Copy { copy, age } => answer_of_copy(alloc, copy, *age),
        Served::Status(status) => answer_of_status(alloc, *status),
    }
}

/// The mark of the copy that is served; 0 for a bare status.
fn mark_of(served: &Served<u64>) -> u64
    ensures { result ≡ world.mark_of served.now }
{
    match served {
        Served::Copy { copy, .. } => copy.tag,
        Served::Status(_) => 0,
    }
}

/// The block of the serial that an outcome begins, if it begins something.
fn block_begun(outcome: &Result<Reply<u64>, StepFault>) -> Option<u32>
    ensures { result ≡ begun_block (world.reply_in outcome.now).begin }
{
    let Ok(reply) = outcome else {
        return None;
    };
    match &reply.begin {
        Some(Begin::Round { serial } | Begin::Peer { serial, .. } | Begin::Read { serial, .. }) =>
            Some(*serial / SERIALS),
        None => None,
    }
}

/// The latest member's request that waited at the node as this block, if any.
fn asked_before(
    alloc: Global,
    waiting: &[Waiting],
    id: u8,
    block: u32,
) -> Result<Option<Arrived>, AllocError>
    ensures { IfOk result (λ asked. asked ≡ world.asked_before waiting.now id block) }
{
    match waiting
        .iter()
        .find(|waiting| waiting.node == id && waiting.block == block)
    {
        Some(waiting) => Ok(Some(Arrived {
            serial: waiting.serial,
            key: waiting.key.copy(alloc)?,
        })),
        None => Ok(None),
    }
}

/// A copy of the request that arrived.
fn copy_of_arrived(alloc: Global, asked: &Option<Arrived>) -> Result<Option<Arrived>, AllocError>
    ensures { IfOk result (λ copy. copy ≡ asked.now) }
{
    match asked {
        Some(asked) => Ok(Some(Arrived {
            serial: asked.serial,
            key: asked.key.copy(alloc)?,
        })),
        None => Ok(None),
    }
}

/// The response to the member that asked, if a member did.
fn answer_to(
    alloc: Global,
    id: u8,
    serve: &Serve<u64>,
    asked: Option<Arrived>,
) -> Result<Option<PeerAnswer>, AllocError>
    requires { IsWritten serve.now.served }
    ensures { IfOk result (λ answer.
        world.answer_to id serve.now.asker serve.now.served asked ≡ cons_option answer []) }
{
    match (serve.asker, asked) {
        (Some(asker), Some(asked)) => Ok(Some(PeerAnswer {
            sender: id,
            receiver: asker,
            serial: asked.serial,
            key: asked.key,
            answer: answer_of(alloc, &serve.served)?,
            mark: mark_of(&serve.served),
        })),
        _ => Ok(None),
    }
}

/// The request that a reply sends to a member, if any.
fn ask_in(alloc: Global, id: u8, begin: &Option<Begin>) -> Result<Option<PeerAsk>, AllocError>
    ensures { IfOk result (λ ask. world.asks_in id begin.now ≡ cons_option ask []) }
{
    match begin {
        Some(Begin::Peer { serial, peer, ask }) => {
            if is_foreign(*peer) {
                return Ok(None);
            }
            Ok(Some(PeerAsk {
                sender: id,
                receiver: *peer,
                serial: *serial,
                ask: ask.copy(alloc)?,
            }))
        }
        _ => Ok(None),
    }
}

impl Parts {
    /// The member's request that a node answers: the one that waited as the block, or else the
    /// event's own (`asked`; `None` if the event is no member's request).
    fn answered(
        &self,
        id: u8,
        asked: &Option<Arrived>,
        waiter: Option<u32>,
    ) -> Result<Option<Arrived>, AllocError>
        ensures { IfOk result (λ found.
            found ≡ answered_by self.now.waiting.items id asked.now waiter) }
    {
        match waiter {
            Some(block) => asked_before(self.alloc, self.waiting.as_slice(), id, block),
            None => copy_of_arrived(self.alloc, asked),
        }
    }

    /// Sends a member's datagrams.
    fn send(&mut self, id: u8, sent: &[Outgoing]) -> Result<(), AllocError>
        ensures { OnOk result (Adds self.old self.new
            (world.datagrams_from (member_by_id self.old.roster id) sent.now) [] [] []) }
    {
        if let Some(member) = self.roster.member(id) {
            let mut made = datagrams_from(self.alloc, &member.cache, sent)?;
            self.datagrams.append(&mut made)?;
        }
        Ok(())
    }

    /// Sends a member's request, if it begins a fetch from a member.
    fn ask(&mut self, id: u8, begin: &Option<Begin>) -> Result<(), AllocError>
        ensures { OnOk result (Adds self.old self.new [] (world.asks_in id begin.now) [] []) }
    {
        if let Some(ask) = ask_in(self.alloc, id, begin)? {
            self.asks.push(ask)?;
        }
        Ok(())
    }

    /// Sends a member's response, if it serves a member.
    fn answer(
        &mut self,
        id: u8,
        asked: &Option<Arrived>,
        serve: &Option<Serve<u64>>,
    ) -> Result<(), AllocError>
        requires { IsWrittenIn serve.now }
        ensures { OnOk result (Adds self.old self.new [] []
            (answers_by self.old.waiting.items id asked.now serve.now) []) }
    {
        let Some(serve) = serve else {
            return Ok(());
        };
        let asked = self.answered(id, asked, serve.waiter)?;
        if let Some(answer) = answer_to(self.alloc, id, serve, asked)? {
            self.answers.push(answer)?;
        }
        Ok(())
    }

    /// Sends all that a reply sends.
    fn post(
        &mut self,
        id: u8,
        asked: &Option<Arrived>,
        reply: &Reply<u64>,
    ) -> Result<(), AllocError>
        requires { IsWrittenIn reply.now.serve }
        ensures { OnOk result (Adds self.old self.new
            (world.datagrams_from (member_by_id self.old.roster id) reply.now.send)
            (world.asks_in id reply.now.begin)
            (answers_by self.old.waiting.items id asked.now reply.now.serve) []) }
    {
        self.send(id, reply.send.as_slice())?;
        self.ask(id, &reply.begin)?;
        self.answer(id, asked, &reply.serve)
    }

    /// Sends all that an outcome sends. A refused step sends nothing.
    fn post_outcome(
        &mut self,
        id: u8,
        asked: &Option<Arrived>,
        outcome: &Result<Reply<u64>, StepFault>,
    ) -> Result<(), AllocError>
        requires { IsWrittenBy outcome.now }
        ensures { OnOk result (Adds self.old self.new
            (world.datagrams_from (member_by_id self.old.roster id)
            (world.reply_in outcome.now).send)
            (world.asks_in id (world.reply_in outcome.now).begin)
            (answers_by self.old.waiting.items id asked.now (world.reply_in outcome.now).serve)
            []) }
    {
        match outcome {
            Ok(reply) => self.post(id, asked, reply),
            Err(_) => Ok(()),
        }
    }

    /// Notes that the event's request waits as this block, if there are both. It stands before
    /// those that began to wait earlier.
    fn wait(&mut self, id: u8, asked: Option<Arrived>, block: Option<u32>) -> Result<(), AllocError>
        ensures { OnOk result (Adds self.old self.new [] [] [] (waits_by id asked block)) }
    {
        if let (Some(asked), Some(block)) = (asked, block) {
            self.waiting.insert(
                0,
                Waiting {
                    node: id,
                    block,
                    serial: asked.serial,
                    key: asked.key,
                },
            )?;
        }
        Ok(())
    }

    /// The node at an index, which is this member's, takes a step, and all that its reply sends is
    /// sent. `asked` is the member's request that the event is, `None` if it is none.
    #[tactic(auto, using(crate::proofs::Serving::outcome_written, crate::proofs::Taking::step_taken))]
    pub(crate) fn step(
        &mut self,
        place: usize,
        id: u8,
        event: Event<u64>,
        asked: Option<Arrived>,
    ) -> Result<Seen, WorldFault>
        requires sound { IsSound self.old }
        requires place { IsPlace self.old.nodes.items id place }
        requires below { place < length self.old.nodes.items }
        requires asked { asked ≡ world.asked_now event (serial_of asked) }
        ensures { IsTaken self.old (NodeSteps id event (serial_of asked)) result self.new }
    {
        let outcome = self.step_at(place, id, event)?;
        self.post_outcome(id, &asked, &outcome)?;
        self.wait(id, asked, block_begun(&outcome))?;
        Ok(Seen::Replied { node: id, outcome })
    }
}
