ghost use Rattle.std.specs.Prelude.{◌≡◌, IfOk};
ghost use Rattle.std.specs.Option.{option_map};
ghost use Rattle.htcp_wire.specs.Cut.{specifier_seen, detail_seen, content_seen};
ghost use Rattle.htcp_wire.specs.Reading.{specifier_at, detail_at, clr_at, ask_at, answer_at};

use crate::message::{CLR, NOP, TST};
use crate::{Content, Detail, Specifier};
use std::alloc::{AllocError, Global};
use values_plain::{Octets, split_counted};

/// A specifier whose texts are still in the datagram.
#[derive(Drop)]
pub(crate) struct SpecifierCut<'a> {
    method: &'a [u8],
    uri: &'a [u8],
    version: &'a [u8],
    request_headers: &'a [u8],
}

impl SpecifierCut<'_> {
    /// The specifier with copies of its texts.
    fn copied(&self, alloc: Global) -> Result<Specifier, AllocError>
        ensures { IfOk result (λ made. made ≡ specifier_seen self.now) }
    {
        Ok(Specifier {
            method: Octets::from_slice(alloc, self.method)?,
            uri: Octets::from_slice(alloc, self.uri)?,
            version: Octets::from_slice(alloc, self.version)?,
            request_headers: Octets::from_slice(alloc, self.request_headers)?,
        })
    }
}

/// A detail whose texts are still in the datagram.
#[derive(Drop)]
pub(crate) struct DetailCut<'a> {
    response_headers: &'a [u8],
    entity_headers: &'a [u8],
    cache_headers: &'a [u8],
}

impl DetailCut<'_> {
    /// The detail with copies of its texts.
    fn copied(&self, alloc: Global) -> Result<Detail, AllocError>
        ensures { IfOk result (λ made. made ≡ detail_seen self.now) }
    {
        Ok(Detail {
            response_headers: Octets::from_slice(alloc, self.response_headers)?,
            entity_headers: Octets::from_slice(alloc, self.entity_headers)?,
            cache_headers: Octets::from_slice(alloc, self.cache_headers)?,
        })
    }
}

/// A content whose texts are still in the datagram.
#[derive(Drop)]
pub(crate) enum ContentCut<'a> {
    /// A content without texts.
    Plain(Content),
    /// RD, and the specifier.
    TstAsk(bool, SpecifierCut<'a>),
    /// What is known of the entity.
    TstHit(DetailCut<'a>),
    /// CACHE-HDRS.
    TstMiss(&'a [u8]),
    /// RD, REASON, and the specifier.
    ClrAsk(bool, u8, SpecifierCut<'a>),
}

impl ContentCut<'_> {
    /// The content with copies of its texts.
    pub(crate) fn copied(self, alloc: Global) -> Result<Content, AllocError>
        ensures { IfOk result (λ made. made ≡ content_seen self.entry) }
    {
        Ok(match self {
            ContentCut::Plain(content) => content,
            ContentCut::TstAsk(desired, spec) => Content::TstAsk {
                desired,
                spec: spec.copied(alloc)?,
            },
            ContentCut::TstHit(detail) => Content::TstHit {
                detail: detail.copied(alloc)?,
            },
            ContentCut::TstMiss(cache) => Content::TstMiss {
                cache: Octets::from_slice(alloc, cache)?,
            },
            ContentCut::ClrAsk(desired, reason, spec) => Content::ClrAsk {
                desired,
                reason,
                spec: spec.copied(alloc)?,
            },
        })
    }
}

/// The specifier at the front of OP-DATA.
#[tactic(auto, unfolding(crate::specs::Reading::specifier_at))]
fn cut_specifier(op_data: &[u8]) -> Option<SpecifierCut<'_>>
    ensures { option_map specifier_seen result ≡ specifier_at op_data.now }
{
    let (method, rest) = split_counted(op_data)?;
    let (uri, rest) = split_counted(rest)?;
    let (version, rest) = split_counted(rest)?;
    let (request_headers, _) = split_counted(rest)?;
    Some(SpecifierCut {
        method,
        uri,
        version,
        request_headers,
    })
}

/// The detail at the front of OP-DATA.
#[tactic(auto, unfolding(crate::specs::Reading::detail_at))]
fn cut_detail(op_data: &[u8]) -> Option<DetailCut<'_>>
    ensures { option_map detail_seen result ≡ detail_at op_data.now }
{
    let (response_headers, rest) = split_counted(op_data)?;
    let (entity_headers, rest) = split_counted(rest)?;
    let (cache_headers, _) = split_counted(rest)?;
    Some(DetailCut {
        response_headers,
        entity_headers,
        cache_headers,
    })
}

/// The content of the OP-DATA of CLR: REASON, the low 4 bits of two octets, and a specifier.
fn cut_clr(desired: bool, op_data: &[u8]) -> Option<ContentCut<'_>>
    ensures { option_map content_seen result ≡ clr_at desired op_data.now }
{
    let (reason, rest) = op_data.split_at_checked(2)?;
    let spec = cut_specifier(rest)?;
    Some(ContentCut::ClrAsk(desired, reason[1] % 16, spec))
}

/// The content of a request. `None` if its OP-DATA lacks what the opcode needs.
pub(crate) fn cut_ask(opcode: u8, desired: bool, op_data: &[u8]) -> Option<ContentCut<'_>>
    ensures { option_map content_seen result ≡ ask_at opcode desired op_data.now }
{
    match opcode {
        NOP => Some(ContentCut::Plain(Content::NopAsk { desired })),
        TST => Some(ContentCut::TstAsk(desired, cut_specifier(op_data)?)),
        CLR => cut_clr(desired, op_data),
        _ => Some(ContentCut::Plain(Content::Other { opcode, desired })),
    }
}

/// The content of a response with MO 0. `None` if its OP-DATA lacks what opcode and code need.
pub(crate) fn cut_answer(opcode: u8, code: u8, op_data: &[u8]) -> Option<ContentCut<'_>>
    ensures { option_map content_seen result ≡ answer_at opcode code op_data.now }
{
    match (opcode, code) {
        (NOP, 0) => Some(ContentCut::Plain(Content::NopAnswer)),
        (TST, 0) => Some(ContentCut::TstHit(cut_detail(op_data)?)),
        (TST, 1) => {
            let (cache, _) = split_counted(op_data)?;
            Some(ContentCut::TstMiss(cache))
        }
        (CLR, 0..=2) => Some(ContentCut::Plain(Content::ClrAnswer { code })),
        _ => Some(ContentCut::Plain(Content::OtherAnswer { opcode, code })),
    }
}
