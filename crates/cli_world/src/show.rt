//! How the outcome of an event reads.
ghost use Rattle.std.specs.Prelude.{◌≡◌, ◌++◌, OnOk, decimal};
ghost use Rattle.cli_world.specs.Shown.{number_shown, named_number, serve_shown, given_shown};
ghost use Rattle.cli_world.specs.Shown.{status_shown, sent_shown, fault_shown, refusal_shown};
ghost use Rattle.cli_world.specs.Shown.{outcome_shown, told_shown, begun_shown, parts_shown};

use itoa::Buffer;
use node_rules::{Serve, Served};
use purge_rules::Status;
use std::alloc::AllocError;
use world_rules::{ActorFault, Outcome};

/// Writes a number.
pub(crate) fn push_count(number: u64, text: &mut Vec<u8>) -> Result<(), AllocError>
    ensures { OnOk result (text.new.items ≡ text.old.items ++ decimal number) }
{
    let mut buffer = Buffer::new();
    text.extend_from_slice(buffer.format(number).as_bytes())
}

/// Writes a number after a space.
fn push_number(number: u64, text: &mut Vec<u8>) -> Result<(), AllocError>
    ensures { OnOk result (text.new.items ≡ text.old.items ++ number_shown number) }
{
    text.extend_from_slice(b" ")?;
    push_count(number, text)
}

/// Writes a number after its name, where there is one.
fn push_named(name: &str, number: Option<u64>, text: &mut Vec<u8>) -> Result<(), AllocError>
    ensures { OnOk result (text.new.items ≡ text.old.items ++ named_number name.now number) }
{
    match number {
        Some(number) => {
            text.extend_from_slice(b" ")?;
            text.extend_from_slice(name.as_bytes())?;
            push_number(number, text)
        }
        None => Ok(()),
    }
}

/// Writes a number of 32 bits after its name, where there is one.
fn push_short(name: &str, number: Option<u32>, text: &mut Vec<u8>) -> Result<(), AllocError>
    ensures { OnOk result (text.new.items ≡ text.old.items ++ named_number name.now number) }
{
    match number {
        Some(number) => push_named(name, Some(u64::from(number)), text),
        None => Ok(()),
    }
}

/// Writes what is served, if anything is.
fn push_serve(serve: &Option<Serve<u64>>, text: &mut Vec<u8>) -> Result<(), AllocError>
    ensures { OnOk result (text.new.items ≡ text.old.items ++ serve_shown serve.now) }
{
    let Some(serve) = serve else {
        return Ok(());
    };
    match &serve.served {
        Served::Copy { copy, .. } => {
            push_named("serve", Some(u64::from(copy.answer.status())), text)?;
            push_named("stamp", Some(u64::from(copy.stamp)), text)?;
            text.extend_from_slice(b" body ")?;
            text.extend_from_slice(copy.answer.body())
        }
        Served::Status(status) => push_named("serve", Some(u64::from(*status)), text),
    }
}

/// Writes the number of a purge or of an admission.
fn push_given(outcome: &Outcome, text: &mut Vec<u8>) -> Result<(), AllocError>
    ensures { OnOk result (text.new.items ≡ text.old.items
        ++ given_shown outcome.now.purge outcome.now.admitted) }
{
    push_short("purge", outcome.purge, text)?;
    push_short("admitted", outcome.admitted, text)
}

/// Writes how far a number is.
fn push_status(status: Option<(u32, Status)>, text: &mut Vec<u8>) -> Result<(), AllocError>
    ensures { OnOk result (text.new.items ≡ text.old.items ++ status_shown status) }
{
    match status {
        Some((_, Status::Unknown)) => text.extend_from_slice(b" unknown"),
        Some((_, Status::Pending(missing))) => {
            push_named("pending", Some(u64::from(missing)), text)
        }
        Some((number, Status::Done)) => push_short("done", Some(number), text),
        None => Ok(()),
    }
}

/// Writes the numbers of what was sent.
fn push_sent(sent: &[u64], text: &mut Vec<u8>) -> Result<(), AllocError>
    ensures { OnOk result (text.new.items ≡ text.old.items ++ sent_shown sent.now) }
{
    if sent.is_empty() {
        return Ok(());
    }
    text.extend_from_slice(b" send")?;
    for number in sent {
        push_number(*number, text)?;
    }
    Ok(())
}

/// Writes the name of a refusal, if there is one.
fn push_fault(fault: Option<ActorFault>, text: &mut Vec<u8>) -> Result<(), AllocError>
    ensures { OnOk result (text.new.items ≡ text.old.items ++ fault_shown fault) }
{
    match fault {
        Some(ActorFault::Step(fault)) => push_refusal(fault.name(), text),
        Some(ActorFault::Master(fault)) => push_refusal(fault.name(), text),
        None => Ok(()),
    }
}

/// Writes the name of a refusal.
pub(crate) fn push_refusal(name: &str, text: &mut Vec<u8>) -> Result<(), AllocError>
    ensures { OnOk result (text.new.items ≡ text.old.items ++ refusal_shown name.now) }
{
    text.extend_from_slice(b" refused ")?;
    text.extend_from_slice(name.as_bytes())
}

/// Writes what is served, which response is sent, and what the master tells.
fn push_told(outcome: &Outcome, text: &mut Vec<u8>) -> Result<(), AllocError>
    ensures { OnOk result (text.new.items ≡ text.old.items ++ told_shown outcome.now) }
{
    push_serve(&outcome.serve, text)?;
    push_named("answer", outcome.answer, text)?;
    push_given(outcome, text)?;
    push_status(outcome.status, text)
}

/// Writes what is sent and what begins, or what was refused.
fn push_begun(outcome: &Outcome, text: &mut Vec<u8>) -> Result<(), AllocError>
    ensures { OnOk result (text.new.items ≡ text.old.items ++ begun_shown outcome.now) }
{
    push_short("round", outcome.round, text)?;
    push_sent(outcome.sent.as_slice(), text)?;
    push_named("ask", outcome.ask, text)?;
    push_short("read", outcome.read, text)?;
    push_fault(outcome.fault, text)
}

/// Writes everything that is told of an event.
fn push_parts(outcome: &Outcome, text: &mut Vec<u8>) -> Result<(), AllocError>
    ensures { OnOk result (text.new.items ≡ text.old.items ++ parts_shown outcome.now) }
{
    push_told(outcome, text)?;
    push_begun(outcome, text)
}

/// Writes everything that is told of an event, and `-` where that is nothing.
pub(crate) fn push_outcome(outcome: &Outcome, text: &mut Vec<u8>) -> Result<(), AllocError>
    ensures { OnOk result (text.new.items ≡ text.old.items ++ outcome_shown outcome.now) }
{
    let length = text.len();
    push_parts(outcome, text)?;
    if text.len() == length {
        text.extend_from_slice(b" -")
    } else {
        Ok(())
    }
}
