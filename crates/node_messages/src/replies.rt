//! A node's responses to datagrams.
ghost use Rattle.std.specs.Prelude.{◌≡◌, ◌≢◌, ◌<◌, ◌++◌, ◌∷◌, [], IfOk, IfSome, codes, decimal};
ghost use Rattle.std.specs.Prelude.{option_map};
ghost use Rattle.icp_wire.specs.declared.message.IcpOp.TheVariants as ops;
ghost use Rattle.htcp_wire.specs.declared.message.Content.TheVariants as content;
ghost use Rattle.node_rules.specs.Texts.{IsSendable, IsAnswerable};
ghost use Rattle.node_rules.specs.Messages as messages;
ghost use Rattle.node_rules.specs.Datagrams.{clr_code, tst_hit};
ghost use Rattle.node_messages.specs.Answers.{tst_content};

use htcp_wire::{Content, Detail, Htcp};
use icp_wire::{Icp, IcpOp};
use itoa::Buffer;
use node_rules::{Message, Outgoing, Sent};
use roster::Address;
use std::alloc::{AllocError, Global};
use values_plain::Octets;

/// Makes the response to a QUERY: this opcode, with the query's number and URL (RFC 2186, "ICP
/// Opcodes").
///
/// The URL must be that of a message that can be answered. The opcode must be neither QUERY nor
/// HIT_OBJ. Allocates nothing.
#[tactic(auto, using(crate::proofs::Sendable::answer_fits))]
pub fn icp_answer(alloc: Global, to: Address, op: IcpOp, number: u32, url: Octets) -> Outgoing
    requires answerable { IsSendable (messages.icp ops.Miss number url) }
    requires query { op ≢ ops.Query }
    requires object { op ≢ ops.HitObj }
    ensures { result ≡ messages.to to (messages.icp op number url) }
{
    let message = Icp {
        op,
        number,
        url,
        object: Octets::new(alloc),
    };
    Outgoing {
        to,
        message: Sent::new(Message::Icp(message)),
    }
}

/// An HTCP/0.0 message that can be encoded.
fn htcp(to: Address, trans: u32, content: Content) -> Outgoing
    requires { IsSendable (messages.htcp trans content) }
    ensures { result ≡ messages.to to (messages.htcp trans content) }
{
    let message = Htcp {
        minor: 0,
        trans,
        content,
    };
    Outgoing {
        to,
        message: Sent::new(Message::Htcp(message)),
    }
}

/// Makes the response to a NOP (RFC 2756, "NOP"). Allocates nothing.
pub fn nop_answer(to: Address, trans: u32) -> Outgoing
    ensures { result ≡ messages.to to (messages.htcp trans content.NopAnswer) }
{
    htcp(to, trans, Content::NopAnswer)
}

/// Makes a response to the message as a whole (RFC 2756, "RESPONSE" where MO is 1). Code 2: opcode
/// not implemented. Code 5: not allowed here.
///
/// Opcode and code have four bits. Allocates nothing.
pub fn overall_answer(to: Address, trans: u32, opcode: u8, code: u8) -> Outgoing
    requires opcode { opcode < 16 }
    requires code { code < 16 }
    ensures { result ≡ messages.to to (messages.overall trans opcode code) }
{
    htcp(to, trans, Content::Overall { opcode, code })
}

/// Makes the response to a CLR (RFC 2756, "CLR"): 0 if a copy was dropped, 2 if there was none.
/// Allocates nothing.
pub fn clr_answer(to: Address, trans: u32, dropped: bool) -> Outgoing
    ensures { result ≡ messages.to to (messages.htcp trans (content.ClrAnswer (clr_code dropped))) }
{
    let code = if dropped { 0 } else { 2 };
    htcp(to, trans, Content::ClrAnswer { code })
}

/// Makes the response to a TST (RFC 2756, "TST"): 0 with the stamp of the copy that is held, or 1
/// without a copy. Only a hit allocates.
pub fn tst_answer(
    alloc: Global,
    to: Address,
    trans: u32,
    stamp: Option<u32>,
) -> Result<Outgoing, AllocError>
    ensures { IfOk result (λ sent.
        sent ≡ messages.to to (messages.htcp trans (tst_content stamp))) }
{
    match stamp {
        Some(stamp) => hit_answer(alloc, to, trans, stamp),
        None => Ok(miss_answer(alloc, to, trans)),
    }
}

/// The response to a TST for what is not held.
fn miss_answer(alloc: Global, to: Address, trans: u32) -> Outgoing
    ensures { result ≡ messages.to to (messages.htcp trans (content.TstMiss [])) }
{
    let cache = Octets::new(alloc);
    htcp(to, trans, Content::TstMiss { cache })
}

/// The response to a TST for a copy with this stamp.
fn hit_answer(alloc: Global, to: Address, trans: u32, stamp: u32) -> Result<Outgoing, AllocError>
    ensures { IfOk result (λ sent. sent ≡ messages.to to (messages.htcp trans (tst_hit stamp))) }
{
    let content = tst_hit_of(alloc, stamp)?;
    Ok(htcp(to, trans, content))
}

/// The content of a TST response that tells a stamp.
fn tst_hit_of(alloc: Global, stamp: u32) -> Result<Content, AllocError>
    ensures { IfOk result (λ content. content ≡ tst_hit stamp) }
{
    Ok(Content::TstHit {
        detail: Detail {
            response_headers: Octets::new(alloc),
            entity_headers: Octets::new(alloc),
            cache_headers: stamp_line(alloc, stamp)?,
        },
    })
}

/// The line of CACHE-HDRS that tells a stamp.
fn stamp_line(alloc: Global, stamp: u32) -> Result<Octets, AllocError>
    ensures { IfOk result (λ line. line ≡ messages.stamp_line stamp) }
{
    let mut buffer = Buffer::new();
    let mut line = Vec::with_capacity(alloc, 27)?;
    line.extend_from_slice(b"X-Purge-Stamp: ")?;
    line.extend_from_slice(buffer.format(stamp).as_bytes())?;
    line.extend_from_slice(b"\r\n")?;
    Ok(Octets::from_vec(line))
}
