//! How the answer to a line reads.
ghost use Rattle.std.specs.Prelude.{◌≡◌, ◌++◌, ◌≤◌, OnOk, IfOk, IsTrue, decimal, filter, length};
ghost use Rattle.std.specs.Prelude.{not};
ghost use Rattle.http_messages.specs.Answer.{is_writable};
ghost use Rattle.purge_rules.specs.Purges.{pending_count as count_of_pending};
ghost use Rattle.cluster_console.specs.Shown.{purge_shown, admission_shown, status_shown};
ghost use Rattle.cluster_console.specs.Shown.{asked_shown, got_shown, body_shown, answer_shown};
ghost use Rattle.cluster_console.specs.Shown.{cause_name as name_of_cause, verdict_shown};
ghost use Rattle.cluster_console.specs.Shown.{checked_shown, id_shown, among_shown};
ghost use Rattle.cluster_console.specs.Shown.{number_line, pending_line, admission_line};
ghost use Rattle.cluster_console.specs.Shown.{pending_head, admission_lines, pending_shown};
ghost use Rattle.cluster_console.specs.Shown.{state_shown, stands as stands_by, member_line};
ghost use Rattle.cluster_console.specs.Shown.{peer_line, peers_shown, refused_line};

use crate::check::{Checked, DeadPeer, MemberState};
use http_messages::{Answer, FetchFault};
use itoa::Buffer;
use purge_rules::{Admission, MasterFault, MemberSet, Nodes, Purge, Purges, Status};
use roster::LAST_MEMBER;
use run_rules::{Cause, Verdict};
use std::alloc::{AllocError, Global};

/// Writes a number.
pub(crate) fn push_number(number: u64, text: &mut Vec<u8>) -> Result<(), AllocError>
    ensures { OnOk result (text.new.items ≡ text.old.items ++ decimal number) }
{
    let mut buffer = Buffer::new();
    text.extend_from_slice(buffer.format(number).as_bytes())
}

/// Writes the number of a purge that was issued, or why it was not.
pub(crate) fn push_purge(
    issued: Result<u32, MasterFault>,
    text: &mut Vec<u8>,
) -> Result<(), AllocError>
    ensures { OnOk result (text.new.items ≡ text.old.items ++ purge_shown issued) }
{
    match issued {
        Ok(number) => {
            text.extend_from_slice(b"purge ")?;
            push_number(u64::from(number), text)
        }
        Err(fault) => text.extend_from_slice(fault.name().as_bytes()),
    }
}

/// Writes the number of an admission, or why there is none.
pub(crate) fn push_admission(
    admitted: Result<u32, MasterFault>,
    text: &mut Vec<u8>,
) -> Result<(), AllocError>
    ensures { OnOk result (text.new.items ≡ text.old.items ++ admission_shown admitted) }
{
    match admitted {
        Ok(number) => {
            text.extend_from_slice(b"admitted ")?;
            push_number(u64::from(number), text)
        }
        Err(fault) => text.extend_from_slice(fault.name().as_bytes()),
    }
}

/// Writes how far a number is.
fn push_status(number: u32, status: Status, text: &mut Vec<u8>) -> Result<(), AllocError>
    ensures { OnOk result (text.new.items ≡ text.old.items ++ status_shown number status) }
{
    match status {
        Status::Unknown => text.extend_from_slice(b"unknown"),
        Status::Pending(missing) => {
            text.extend_from_slice(b"pending ")?;
            push_number(u64::from(missing), text)
        }
        Status::Done => {
            text.extend_from_slice(b"done ")?;
            push_number(u64::from(number), text)
        }
    }
}

/// Writes how far a number is, or why the master does not tell.
pub(crate) fn push_asked(
    number: u32,
    asked: Result<Status, MasterFault>,
    text: &mut Vec<u8>,
) -> Result<(), AllocError>
    ensures { OnOk result (text.new.items ≡ text.old.items ++ asked_shown number asked) }
{
    match asked {
        Ok(status) => push_status(number, status, text),
        Err(fault) => text.extend_from_slice(fault.name().as_bytes()),
    }
}

/// Writes what a member answered, or the name of the fault.
pub(crate) fn push_got(
    alloc: Global,
    got: &Result<Answer, FetchFault>,
    text: &mut Vec<u8>,
) -> Result<(), AllocError>
    ensures shown { OnOk result (text.new.items ≡ text.old.items ++ got_shown got.now) }
    ensures writable { OnOk result (IfOk got.now (λ answer. IsTrue (is_writable answer))) }
{
    match got {
        Ok(answer) => push_answer(alloc, answer, text),
        Err(fault) => text.extend_from_slice(fault.name().as_bytes()),
    }
}

/// Writes the status and the body of an answer.
fn push_answer(alloc: Global, answer: &Answer, text: &mut Vec<u8>) -> Result<(), AllocError>
    ensures shown { OnOk result (text.new.items ≡ text.old.items ++ answer_shown answer.now) }
    ensures writable { OnOk result (IsTrue (is_writable answer.now)) }
{
    push_number(u64::from(answer.status()), text)?;
    text.extend_from_slice(b" ")?;
    push_body(alloc, answer.body(), text)
}

/// Writes a body in hex, and `-` where it is empty.
fn push_body(alloc: Global, body: &[u8], text: &mut Vec<u8>) -> Result<(), AllocError>
    ensures { OnOk result (text.new.items ≡ text.old.items ++ body_shown body.now) }
{
    if body.is_empty() {
        text.extend_from_slice(b"-")
    } else {
        text.extend_from_slice(hex::encode(alloc, body)?.as_bytes())
    }
}

/// The name of a flaw of a run.
const fn cause_name(cause: Cause) -> &'static str
    ensures { result.now ≡ name_of_cause cause }
{
    match cause {
        Cause::DoublePlace => "DoublePlace",
        Cause::NotSent => "NotSent",
        Cause::OtherReply => "OtherReply",
        Cause::OtherState => "OtherState",
    }
}

/// Writes the verdict on a run.
fn push_verdict(verdict: Verdict, text: &mut Vec<u8>) -> Result<(), AllocError>
    ensures { OnOk result (text.new.items ≡ text.old.items ++ verdict_shown verdict) }
{
    match verdict {
        Verdict::Yes => text.extend_from_slice(b"yes"),
        Verdict::No { place, cause } => {
            text.extend_from_slice(b"no ")?;
            push_number(place, text)?;
            text.extend_from_slice(b" ")?;
            text.extend_from_slice(cause_name(cause).as_bytes())
        }
    }
}

/// Writes what is said of a run.
pub(crate) fn push_checked(checked: Checked, text: &mut Vec<u8>) -> Result<(), AllocError>
    ensures { OnOk result (text.new.items ≡ text.old.items ++ checked_shown checked) }
{
    match checked {
        Checked::Judged(verdict) => push_verdict(verdict, text),
        Checked::Forgotten => text.extend_from_slice(b"forgotten"),
        Checked::Ended => text.extend_from_slice(b"Ended"),
    }
}

/// Writes an id behind a space, if it is told.
fn push_id(is_told: bool, id: u8, text: &mut Vec<u8>) -> Result<(), AllocError>
    ensures { OnOk result (text.new.items ≡ text.old.items ++ id_shown is_told id) }
{
    if !is_told {
        return Ok(());
    }
    text.extend_from_slice(b" ")?;
    push_number(u64::from(id), text)
}

/// Writes the ids of these members, each behind a space.
#[tactic(auto, unfolding(crate::specs::Shown::among_shown))]
fn push_among(members: MemberSet, text: &mut Vec<u8>) -> Result<(), AllocError>
    ensures { OnOk result (text.new.items ≡ text.old.items ++ among_shown members) }
{
    for place in 0..LAST_MEMBER {
        let id = place + 1;
        push_id(members.has(id), id, text)?;
    }
    Ok(())
}

/// Writes a pending number on a line of its own, behind others: what it is of, and the members that
/// have not acknowledged it.
fn push_number_line(
    nodes: &Nodes,
    purges: &Purges,
    number: u32,
    what: &[u8],
    text: &mut Vec<u8>,
) -> Result<(), AllocError>
    ensures { OnOk result (text.new.items
        ≡ text.old.items ++ number_line nodes.now purges.now number what.now) }
{
    text.extend_from_slice(b"\n")?;
    push_number(u64::from(number), text)?;
    text.extend_from_slice(b" ")?;
    text.extend_from_slice(what)?;
    push_among(purges.missing(nodes, number), text)
}

/// Writes a pending purge on a line of its own, behind others.
fn push_pending_line(
    nodes: &Nodes,
    purges: &Purges,
    purge: &Purge,
    text: &mut Vec<u8>,
) -> Result<(), AllocError>
    ensures { OnOk result (text.new.items
        ≡ text.old.items ++ pending_line nodes.now purges.now purge.now) }
{
    push_number_line(nodes, purges, purge.number, purge.key.text(), text)
}

/// Writes an admission on a line of its own, behind others, if it is pending.
fn push_admission_line(
    nodes: &Nodes,
    purges: &Purges,
    admission: &Admission,
    text: &mut Vec<u8>,
) -> Result<(), AllocError>
    ensures { OnOk result (text.new.items
        ≡ text.old.items ++ admission_line nodes.now purges.now admission.now) }
{
    if admission.is_done {
        return Ok(());
    }
    push_number_line(nodes, purges, admission.number, b"admission", text)
}

/// How many of these admissions are pending.
#[tactic(auto, using(crate::proofs::Counts::filter_fits))]
fn count_pending(admissions: &[Admission]) -> usize
    ensures value { result ≡ length (filter (λ a. not a.is_done) admissions.now) }
    ensures fits { result ≤ length admissions.now }
{
    admissions
        .iter()
        .filter(|admission| !admission.is_done)
        .count()
}

/// How many purges and admissions are pending.
fn pending_count(purges: &Purges) -> u64
    ensures { result ≡ count_of_pending purges.now }
{
    let (pending, admissions) = (purges.pending(), purges.admissions());
    pending.len() as u64 + count_pending(admissions) as u64
}

/// Writes how many purges and admissions are pending, and then each admission.
fn push_admissions(nodes: &Nodes, purges: &Purges, text: &mut Vec<u8>) -> Result<(), AllocError>
    ensures { OnOk result (text.new.items ≡ text.old.items
        ++ (pending_head purges.now ++ admission_lines nodes.now purges.now)) }
{
    text.extend_from_slice(b"purges ")?;
    push_number(pending_count(purges), text)?;
    for admission in purges.admissions() {
        push_admission_line(nodes, purges, admission, text)?;
    }
    Ok(())
}

/// Writes how many purges and admissions are pending, then each admission, and then each purge.
pub(crate) fn push_pending(
    nodes: &Nodes,
    purges: &Purges,
    text: &mut Vec<u8>,
) -> Result<(), AllocError>
    ensures { OnOk result (text.new.items
        ≡ text.old.items ++ pending_shown nodes.now purges.now) }
{
    push_admissions(nodes, purges, text)?;
    for purge in purges.pending() {
        push_pending_line(nodes, purges, purge, text)?;
    }
    Ok(())
}

/// How a member stands.
const fn state_name(state: MemberState) -> &'static str
    ensures { result.now ≡ state_shown state }
{
    match state {
        MemberState::Open => "open",
        MemberState::Outside => "outside",
        MemberState::StoreFault => "closed StoreFault",
        MemberState::NoMemory => "closed NoMemory",
    }
}

/// How a member stands that is open or closed, if it is outside or not.
pub(crate) fn stands(is_outside: bool, state: MemberState) -> MemberState
    ensures { result ≡ stands_by is_outside state }
{
    match (is_outside, state) {
        (true, MemberState::Open) => MemberState::Outside,
        (_, state) => state,
    }
}

/// Writes a member on a line of its own, behind others.
pub(crate) fn push_member(id: u8, state: MemberState, text: &mut Vec<u8>) -> Result<(), AllocError>
    ensures { OnOk result (text.new.items ≡ text.old.items ++ member_line id state) }
{
    text.extend_from_slice(b"\n")?;
    push_number(u64::from(id), text)?;
    text.extend_from_slice(b" ")?;
    text.extend_from_slice(state_name(state).as_bytes())
}

/// Writes a peer that a member thinks dead on a line of its own, behind others.
fn push_peer(dead: &DeadPeer, text: &mut Vec<u8>) -> Result<(), AllocError>
    ensures { OnOk result (text.new.items ≡ text.old.items ++ peer_line dead.now) }
{
    text.extend_from_slice(b"\n")?;
    push_number(u64::from(dead.member), text)?;
    text.extend_from_slice(b" ")?;
    push_number(u64::from(dead.peer), text)?;
    text.extend_from_slice(b" dead ")?;
    push_number(dead.seconds, text)
}

/// Writes how many peers are thought dead, and then each of them.
pub(crate) fn push_peers(dead: &[DeadPeer], text: &mut Vec<u8>) -> Result<(), AllocError>
    ensures { OnOk result (text.new.items ≡ text.old.items ++ peers_shown dead.now) }
{
    text.extend_from_slice(b"peers ")?;
    push_number(dead.len() as u64, text)?;
    for peer in dead {
        push_peer(peer, text)?;
    }
    Ok(())
}

/// Writes how many requests a member has refused on a line of its own, behind others.
pub(crate) fn push_refused(id: u8, count: u64, text: &mut Vec<u8>) -> Result<(), AllocError>
    ensures { OnOk result (text.new.items ≡ text.old.items ++ refused_line id count) }
{
    text.extend_from_slice(b"\n")?;
    push_number(u64::from(id), text)?;
    text.extend_from_slice(b" ")?;
    push_number(count, text)
}
