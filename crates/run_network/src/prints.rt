//! Prints: hashes of items, by SipHash with keys that nobody outside knows. Equal items have equal
//! prints.
ghost use Rattle.std.specs.Prelude.{◌≡◌, map};
ghost use Rattle.http_messages.specs.Field.{field_text};
ghost use Rattle.run_network.specs.Written.{written_text};
ghost use Rattle.run_network.specs.Prints as prints;

use crate::written::Written;
use htcp_wire::Content;
use http_messages::Field;
use node_rules::Message;
use roster::Address;
use std::hash::{BuildHasher, DefaultHasher, Hash, Hasher, RandomState};

/// A message's ICP request number or HTCP TRANS-ID.
fn number_in(message: &Message) -> u32
    ensures { result ≡ prints.number_in message.now }
{
    match message {
        Message::Icp(message) => message.number,
        Message::Htcp(message) => message.trans,
    }
}

/// The URL that a message names; empty if it names none.
fn text_in(message: &Message) -> &[u8]
    ensures { result.now ≡ prints.text_in message.now }
{
    match message {
        Message::Icp(message) => message.url.as_slice(),
        Message::Htcp(message) => uri_in(&message.content),
    }
}

/// The URL that an HTCP message names; empty if it names none.
fn uri_in(content: &Content) -> &[u8]
    ensures { result.now ≡ prints.uri_in content.now }
{
    match content {
        Content::TstAsk { spec, .. } => spec.uri.as_slice(),
        Content::ClrAsk { spec, .. } => spec.uri.as_slice(),
        _ => &[],
    }
}

/// The print of a datagram: of its sender, receiver, number and URL.
#[tactic(auto, unfolding(crate::specs::Prints::letter_print))]
pub(crate) fn letter_print(
    keys: RandomState,
    sender: Address,
    receiver: u8,
    message: &Message,
) -> u64
    ensures { result ≡ prints.letter_print keys sender receiver message.now }
{
    let number = number_in(message);
    keys.hash_one((sender.ip, sender.port, receiver, number, text_in(message)))
}

/// The print of a request: of its sender, receiver and key.
#[tactic(auto, unfolding(crate::specs::Prints::ask_print))]
pub(crate) fn ask_print(keys: RandomState, sender: u8, receiver: u8, key: &[u8]) -> u64
    ensures { result ≡ prints.ask_print keys sender receiver key.now }
{
    keys.hash_one((sender, receiver, key))
}

/// Feeds a text to the hash: its length and its octets.
fn write_text(hasher: &mut DefaultHasher, text: &[u8])
    ensures { hasher.new ≡ prints.written_to hasher.old (prints.text_writes text.now) }
{
    hasher.write_usize(text.len());
    hasher.write(text);
}

/// Feeds a field to the hash: its name and its value.
fn write_field(hasher: &mut DefaultHasher, field: &Field)
    ensures { hasher.new ≡ prints.written_to hasher.old
        (prints.field_writes (field_text field.now)) }
{
    write_text(hasher, field.name.as_str().as_bytes());
    write_text(hasher, field.value.as_bytes());
}

/// Feeds fields to the hash: their number, and each.
fn write_fields(hasher: &mut DefaultHasher, fields: &[Field])
    ensures { hasher.new ≡ prints.written_to hasher.old
        (prints.fields_writes (map field_text fields.now)) }
{
    hasher.write_usize(fields.len());
    for field in fields {
        write_field(hasher, field);
    }
}

/// The print of a response: of its sender, receiver and key, and all that is written of it. So few
/// responses share one, however many there are for one key. Its time grows with the response's
/// octets.
#[tactic(auto, unfolding(crate::specs::Prints::answer_print))]
pub(crate) fn answer_print(
    keys: RandomState,
    sender: u8,
    receiver: u8,
    key: &[u8],
    answer: &Written<'_>,
) -> u64
    ensures { result ≡ prints.answer_print keys sender receiver key.now (written_text answer.now) }
{
    let mut hasher = keys.build_hasher();
    let numbers = (sender, receiver, answer.status, answer.age, answer.stamp);
    numbers.hash(&mut hasher);
    write_text(&mut hasher, key);
    write_fields(&mut hasher, answer.fields);
    write_text(&mut hasher, answer.body);
    hasher.finish()
}
