//! What an event raises, and the floors that are stored if the raise fails.
ghost use Rattle.std.specs.Prelude.{◌≡◌, ◌≤◌, ℕ, IfOk, IfSome, OnOk};
ghost use Rattle.htcp_wire.specs.declared.numbers.HeaderKind.TheVariants as kinds;
ghost use Rattle.htcp_wire.specs.Numbers.{number_in_text};
ghost use Rattle.node_rules.specs.Raises.{number_of, raised_by};
ghost use Rattle.node_rules.specs.Datagrams.{base_alone};
ghost use Rattle.node_rules.specs.Relation.{raise_in as raise_of_event, raise_in_message};
ghost use Rattle.node_rules.specs.Relation.{raise_meant, purge_by_line};
ghost use Rattle.node_core.specs.View.{HasKeyOf};
ghost use Rattle.node_rules.specs.State.{setting};
ghost use Rattle.values_keys.specs.KeyOf.{key_of as key_of_octets};
ghost use Rattle.run_rules.specs.Stored.{stored_by};

use floor_rules::{FloorStore, Floors, MemoryFloors};
use htcp_wire::{Content, HeaderKind, HtcpFault, Specifier, number_in};
use node_rules::{Event, Message, Raise};
use roster::{Address, Roster};
use std::alloc::{AllocError, Global};
use url_key::{Key, KeyFault};

/// Reads the key of a text, if it has one.
fn read_key(alloc: Global, text: &[u8]) -> Result<Option<Key>, AllocError>
    ensures { IfOk result (HasKeyOf text.now) }
{
    match Key::read(alloc, text) {
        Ok(key) => Ok(Some(key)),
        Err(KeyFault::NoMemory) => Err(AllocError),
        Err(_) => Ok(None),
    }
}

/// The key of a text, if it has one, in the words of `values_keys`.
fn key_of(alloc: Global, text: &[u8]) -> Result<Option<Key>, AllocError>
    ensures { IfOk result (λ key. key ≡ key_of_octets text.now) }
{
    read_key(alloc, text)
}

/// What a CLR with this SPECIFIER and no base line raises: a purge of the master, whose header has
/// one number, at least 1, that is its TRANS-ID.
fn purge_by(
    alloc: Global,
    roster: &Roster,
    from: Address,
    trans: u32,
    spec: &Specifier,
) -> Result<Option<Raise>, AllocError>
    ensures raise { IfOk result (λ raise. (id : ℕ) →
        raise ≡ purge_by_line (setting roster.now id) from trans (key_of_octets spec.now.uri)
        (number_in_text spec.now.request_headers kinds.PurgeNumber)) }
    ensures number { IfOk result (λ raise. IfSome raise (λ r. 1 ≤ number_of r)) }
{
    let Ok(Some(number)) = number_in(spec.request_headers.as_slice(), HeaderKind::PurgeNumber)
    else {
        return Ok(None);
    };
    let Some(key) = key_of(alloc, spec.uri.as_slice())? else {
        return Ok(None);
    };
    if roster.is_master(from) && number == trans && number >= 1 {
        Ok(Some(Raise::Floor { key, number }))
    } else {
        Ok(None)
    }
}

/// What a CLR with this base line raises: an admission by the master, whose header has no number
/// line, and whose number is at least 1 and is its TRANS-ID.
fn base_by(
    roster: &Roster,
    from: Address,
    trans: u32,
    base: u32,
    number: Result<Option<u32>, HtcpFault>,
) -> Option<Raise>
    ensures raise { (id : ℕ) → result ≡ base_alone (setting roster.now id) from trans base number }
    ensures number { IfSome result (λ r. 1 ≤ number_of r) }
{
    match number {
        Ok(None) if roster.is_master(from) && base == trans && base >= 1 => {
            Some(Raise::Base { number: base })
        }
        _ => None,
    }
}

/// What a CLR with this SPECIFIER raises, if anything.
fn raise_by(
    alloc: Global,
    roster: &Roster,
    from: Address,
    trans: u32,
    spec: &Specifier,
) -> Result<Option<Raise>, AllocError>
    ensures raise { IfOk result (λ raise. (id : ℕ) →
        raise ≡ raise_meant (setting roster.now id) from trans spec.now) }
    ensures number { IfOk result (λ raise. IfSome raise (λ r. 1 ≤ number_of r)) }
{
    let headers = spec.request_headers.as_slice();
    match number_in(headers, HeaderKind::PurgeBase) {
        Ok(None) => purge_by(alloc, roster, from, trans, spec),
        Ok(Some(base)) => {
            let number = number_in(headers, HeaderKind::PurgeNumber);
            Ok(base_by(roster, from, trans, base, number))
        }
        Err(_) => Ok(None),
    }
}

/// What a message raises, if anything.
fn raise_by_message(
    alloc: Global,
    roster: &Roster,
    from: Address,
    message: &Message,
) -> Result<Option<Raise>, AllocError>
    ensures raise { IfOk result (λ raise. (id : ℕ) →
        raise ≡ raise_in_message (setting roster.now id) from message.now) }
    ensures number { IfOk result (λ raise. IfSome raise (λ r. 1 ≤ number_of r)) }
{
    match message {
        Message::Icp(_) => Ok(None),
        Message::Htcp(message) => match &message.content {
            Content::ClrAsk { spec, .. } => raise_by(alloc, roster, from, message.trans, spec),
            _ => Ok(None),
        },
    }
}

/// What an event raises, if anything: the floor of a key by a purge, the base by an admission.
pub(crate) fn raise_in(
    alloc: Global,
    roster: &Roster,
    event: &Event<()>,
) -> Result<Option<Raise>, AllocError>
    ensures raise { IfOk result (λ raise. (id : ℕ) →
        raise ≡ raise_of_event (setting roster.now id) event.now) }
    ensures number { IfOk result (λ raise. IfSome raise (λ r. 1 ≤ number_of r)) }
{
    match event {
        Event::Datagram { from, message, .. } => {
            raise_by_message(alloc, roster, *from, message.message())
        }
        _ => Ok(None),
    }
}

/// Raises floors.
fn raise_floors(alloc: Global, floors: &mut Floors, raise: &Raise) -> Result<(), AllocError>
    requires { 1 ≤ number_of raise.now }
    ensures { OnOk result (floors.new ≡ raised_by raise.now floors.old) }
{
    match raise {
        Raise::Floor { key, number } => floors.raise(alloc, key, *number),
        Raise::Base { number } => {
            floors.raise_base(*number);
            Ok(())
        }
    }
}

/// Raises floors in memory, which never fail.
fn raise_stored(floors: &mut MemoryFloors, alloc: Global, raise: &Raise) -> Result<(), AllocError>
    requires { 1 ≤ number_of raise.now }
    ensures { OnOk result (floors.new ≡ raised_by raise.now floors.old) }
{
    let done = match raise {
        Raise::Floor { key, number } => floors.raise(alloc, key, *number),
        Raise::Base { number } => floors.raise_base(*number),
    };
    match done {
        Ok(()) => Ok(()),
        Err(_) => Err(AllocError),
    }
}

/// The floors that are stored after this raise has failed. `kept` are the floors with which the
/// node opens next, rows and base: where they are those after the raise, it is stored.
#[tactic(auto, using(run_rules::proofs::Stored::stored_after, run_rules::proofs::Stored::stored_before))]
pub(crate) fn stored(
    alloc: Global,
    mut floors: MemoryFloors,
    raise: &Raise,
    kept: &Floors,
) -> Result<MemoryFloors, AllocError>
    requires { 1 ≤ number_of raise.now }
    ensures { IfOk result (λ after. after ≡ stored_by floors raise.now kept.now) }
{
    let Ok(mut after) = floors.load(alloc) else {
        return Err(AllocError);
    };
    raise_floors(alloc, &mut after, raise)?;
    if !kept.same(&after) {
        return Ok(floors);
    }
    raise_stored(&mut floors, alloc, raise)?;
    Ok(floors)
}
