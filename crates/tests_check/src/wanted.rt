//! What a verdict is to say on a run of which a member's entry is changed.
use crate::changes::{Change, Outcome, place_before};
use htcp_wire::Content;
use icp_wire::IcpOp;
use node_book::NodeEntry;
use node_copies::same_outcome;
use node_rules::{Event, Message};
use run_rules::{Cause, Verdict};

/// What is wanted of the verdict on a changed run.
#[derive(Clone, Copy, Debug)]
pub(crate) enum Wanted {
    /// It is a run as before.
    ARun,
    /// It has this flaw.
    Flaw(u64, Cause),
    /// It has a flaw.
    AFlaw,
    /// It may have been a run.
    Anything,
}

impl Wanted {
    /// Whether the verdict is what is wanted.
    pub(crate) fn is_met_by(self, verdict: Verdict) -> bool {
        match self {
            Wanted::ARun => verdict == Verdict::Yes,
            Wanted::Flaw(place, cause) => verdict == Verdict::No { place, cause },
            Wanted::AFlaw => verdict != Verdict::Yes,
            Wanted::Anything => true,
        }
    }

    /// What is wanted where the changed run may have been, or not.
    pub(crate) fn where_it_may_be(may_be: bool) -> Wanted {
        if may_be {
            Wanted::Anything
        } else {
            Wanted::AFlaw
        }
    }
}

/// Whether a step leaves nothing behind that others may meet: it sends nothing, begins nothing and
/// serves no member.
fn is_quiet(outcome: &Outcome) -> bool {
    match outcome {
        Ok(reply) => {
            let serves_member = match &reply.serve {
                Some(serve) => serve.asker.is_some(),
                None => false,
            };
            reply.send.as_slice().is_empty() && reply.begin.is_none() && !serves_member
        }
        Err(_) => true,
    }
}

/// Whether an entry may be missing: its step leaves nothing behind, and it is no answer of which a
/// copy is kept.
fn may_be_missing(entry: &NodeEntry) -> bool {
    match &entry.event {
        Event::PeerAnswer { .. } | Event::OriginAnswer { .. } | Event::ForeignAnswer { .. } => {
            entry.outcome.is_err()
        }
        _ => is_quiet(&entry.outcome),
    }
}

/// The text of the URL that a datagram speaks of, if it does.
fn url_in(message: &Message) -> Option<&[u8]> {
    match message {
        Message::Icp(message) => Some(message.url.as_slice()),
        Message::Htcp(message) => match &message.content {
            Content::TstAsk { spec, .. } | Content::ClrAsk { spec, .. } => {
                Some(spec.uri.as_slice())
            }
            _ => None,
        },
    }
}

/// The text of the URL that an event speaks of, if it does.
fn url_of(event: &Event<()>) -> Option<&[u8]> {
    match event {
        Event::Client { ask, .. } | Event::PeerAsk { ask, .. } => Some(ask.key.text()),
        Event::PeerAnswer { key, .. }
        | Event::OriginAnswer { key, .. }
        | Event::ForeignAnswer { key, .. } => Some(key.text()),
        Event::Datagram { message, .. } => url_in(message.message()),
        Event::FetchFailed { .. } | Event::Expired { .. } => None,
    }
}

/// Whether an event asks whether there is a copy, which changes nothing.
fn is_question(event: &Event<()>) -> bool {
    match event {
        Event::Datagram { message, .. } => match message.message() {
            Message::Icp(message) => message.op == IcpOp::Query,
            Message::Htcp(message) => matches!(message.content, Content::TstAsk { .. }),
        },
        _ => false,
    }
}

/// Whether a step changes nothing, or leaves nothing behind.
fn is_free(entry: &NodeEntry) -> bool {
    is_question(&entry.event) || is_quiet(&entry.outcome)
}

fn is_same_url(one: &Event<()>, other: &Event<()>) -> bool {
    match (url_of(one), url_of(other)) {
        (Some(one), Some(other)) => one == other,
        _ => false,
    }
}

/// Whether two steps may have been made the other way round: they speak of different URLs, one of
/// them changes nothing or leaves nothing behind, or both led to the same.
fn may_change_turns(one: &NodeEntry, other: &NodeEntry) -> bool {
    is_free(one)
        || is_free(other)
        || !is_same_url(&one.event, &other.event)
        || same_outcome(&one.outcome, &other.outcome)
}

/// Whether a reply says something that can be said otherwise.
fn says_something(outcome: &Outcome) -> bool {
    match outcome {
        Ok(reply) => {
            reply.serve.is_some() || reply.begin.is_some() || !reply.send.as_slice().is_empty()
        }
        Err(_) => false,
    }
}

/// What is wanted where an entry and its next one are changed.
fn wanted_of_both(entry: &NodeEntry, next: &NodeEntry, change: Change) -> Option<Wanted> {
    match change {
        Change::Swapped => Some(Wanted::Flaw(entry.place, Cause::DoublePlace)),
        Change::Exchanged => Some(Wanted::where_it_may_be(may_change_turns(entry, next))),
        Change::OtherEvent => Some(Wanted::where_it_may_be(same_outcome(
            &entry.outcome,
            &next.outcome,
        ))),
        _ => None,
    }
}

/// What is wanted where an entry itself is changed, and the place of the one before it is this.
fn wanted_of_one(entry: &NodeEntry, before: u64, change: Change) -> Option<Wanted> {
    match change {
        Change::Dropped => Some(Wanted::where_it_may_be(may_be_missing(entry))),
        Change::Doubled => Some(Wanted::Flaw(entry.place, Cause::DoublePlace)),
        Change::OtherFault => Some(Wanted::Flaw(entry.place, Cause::OtherReply)),
        Change::OtherReply if says_something(&entry.outcome) => {
            Some(Wanted::Flaw(entry.place, Cause::OtherReply))
        }
        Change::SamePlace if before >= 1 => Some(Wanted::Flaw(before, Cause::DoublePlace)),
        Change::OtherSeat => Some(Wanted::ARun),
        _ => None,
    }
}

/// What is wanted of the verdict where the entry at a place is changed, and none where that changes
/// nothing: the last entry has no next one, and the first none before it.
pub(crate) fn verdict_wanted(entries: &[NodeEntry], at: usize, change: Change) -> Option<Wanted> {
    let entry = entries.get(at)?;
    match change {
        Change::Swapped | Change::Exchanged | Change::OtherEvent => {
            wanted_of_both(entry, entries.get(at.wrapping_add(1))?, change)
        }
        _ => wanted_of_one(entry, place_before(entries, at), change),
    }
}
