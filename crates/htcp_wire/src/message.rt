ghost use Rattle.std.specs.Prelude.{◌≡◌, IfOk};
ghost use Rattle.htcp_wire.specs.Names.{content_name};

use std::alloc::{AllocError, Global};
use values_plain::Octets;

/// The greatest length of a written message, in octets. One that is read may have 65,535.
pub const LONGEST_WRITTEN: usize = 16_384;

/// The opcode of NOP (RFC 2756, "NOP").
pub(crate) const NOP: u8 = 0;

/// The opcode of TST (RFC 2756, "TST").
pub const TST: u8 = 1;

/// The opcode of CLR (RFC 2756, "CLR").
pub const CLR: u8 = 4;

/// The code of a response to the message as a whole whose opcode is not implemented (RFC 2756,
/// "RESPONSE" where MO is 1).
pub const NOT_IMPLEMENTED: u8 = 2;

/// The code of a response to the message as a whole that is not allowed here (RFC 2756, "RESPONSE"
/// where MO is 1).
pub const NOT_ALLOWED: u8 = 5;

/// Which entity a request is about (RFC 2756, "SPECIFIER").
#[derive(Debug, PartialEq, Eq)]
pub struct Specifier {
    /// METHOD: the method of an HTTP request, such as `GET`.
    pub method: Octets,
    /// URI: the URI of the entity. This crate does not look into it.
    pub uri: Octets,
    /// VERSION: the version of HTTP, such as `HTTP/1.1`.
    pub version: Octets,
    /// REQ-HDRS: header lines of a request, each ended by CR LF. `decode` takes any octets.
    pub request_headers: Octets,
}

impl Drop for Specifier {
    fn drop(self) {
        let Specifier {
            method: _,
            uri: _,
            version: _,
            request_headers: _,
        } = self;
    }
}

impl Specifier {
    /// A second copy. The error is want of memory.
    pub fn copy(&self, alloc: Global) -> Result<Specifier, AllocError>
        ensures { IfOk result (λ copy. copy ≡ self.now) }
    {
        Ok(Specifier {
            method: self.method.copy(alloc)?,
            uri: self.uri.copy(alloc)?,
            version: self.version.copy(alloc)?,
            request_headers: self.request_headers.copy(alloc)?,
        })
    }
}

/// What is known of an entity (RFC 2756, "DETAIL").
#[derive(Debug, PartialEq, Eq)]
pub struct Detail {
    /// RESP-HDRS: header lines of the response.
    pub response_headers: Octets,
    /// ENTITY-HDRS: header lines of the entity.
    pub entity_headers: Octets,
    /// CACHE-HDRS: header lines of the cache that responds.
    pub cache_headers: Octets,
}

impl Drop for Detail {
    fn drop(self) {
        let Detail {
            response_headers: _,
            entity_headers: _,
            cache_headers: _,
        } = self;
    }
}

impl Detail {
    /// A second copy. The error is want of memory.
    pub fn copy(&self, alloc: Global) -> Result<Detail, AllocError>
        ensures { IfOk result (λ copy. copy ≡ self.now) }
    {
        Ok(Detail {
            response_headers: self.response_headers.copy(alloc)?,
            entity_headers: self.entity_headers.copy(alloc)?,
            cache_headers: self.cache_headers.copy(alloc)?,
        })
    }
}

/// What a message asks or answers. In a request `desired` is RD: a response is desired. `opcode`
/// and `code` are OPCODE and RESPONSE, each 0 to 15 in a message that is read.
#[derive(Debug, PartialEq, Eq, Drop)]
pub enum Content {
    /// NOP: is the receiver there?
    NopAsk {
        desired: bool,
    },
    /// The response to NOP: the sender is there.
    NopAnswer,
    /// TST: does the receiver hold the entity?
    TstAsk {
        desired: bool,
        spec: Specifier,
    },
    /// Response 0 to TST: the sender holds the entity, and this is known of it.
    TstHit {
        detail: Detail,
    },
    /// Response 1 to TST: the sender does not hold it. `cache` is CACHE-HDRS.
    TstMiss {
        cache: Octets,
    },
    /// CLR: drop the entity. `reason` is REASON, 0 to 15: 0 unspecified, 1 the origin said that the
    /// entity does not exist.
    ClrAsk {
        desired: bool,
        reason: u8,
        spec: Specifier,
    },
    /// The response to CLR: 0 it was held and is gone, 1 it is held and stays, 2 it was not held.
    ClrAnswer {
        code: u8,
    },
    /// A request with another opcode: MON, SET, or 5 to 15.
    Other {
        opcode: u8,
        desired: bool,
    },
    /// A response with MO 1, about the message as a whole: for example 2 (opcode not implemented)
    /// or 5 (inappropriate, disallowed or undesirable opcode).
    Overall {
        opcode: u8,
        code: u8,
    },
    /// A response with MO 0 that is none of the above.
    OtherAnswer {
        opcode: u8,
        code: u8,
    },
}

impl Content {
    /// The name that scripts print: the name of the variant.
    pub const fn name(&self) -> &'static str
        ensures { result.now ≡ content_name self.now }
    {
        match self {
            Content::NopAsk { .. } => "NopAsk",
            Content::NopAnswer => "NopAnswer",
            Content::TstAsk { .. } => "TstAsk",
            Content::TstHit { .. } => "TstHit",
            Content::TstMiss { .. } => "TstMiss",
            Content::ClrAsk { .. } => "ClrAsk",
            Content::ClrAnswer { .. } => "ClrAnswer",
            Content::Other { .. } => "Other",
            Content::Overall { .. } => "Overall",
            Content::OtherAnswer { .. } => "OtherAnswer",
        }
    }

    /// A second copy. The error is want of memory.
    pub fn copy(&self, alloc: Global) -> Result<Content, AllocError>
        ensures { IfOk result (λ copy. copy ≡ self.now) }
    {
        Ok(match self {
            Content::NopAsk { desired } => Content::NopAsk { desired: *desired },
            Content::NopAnswer => Content::NopAnswer,
            Content::TstAsk { desired, spec } => Content::TstAsk {
                desired: *desired,
                spec: spec.copy(alloc)?,
            },
            Content::TstHit { detail } => Content::TstHit {
                detail: detail.copy(alloc)?,
            },
            Content::TstMiss { cache } => Content::TstMiss {
                cache: cache.copy(alloc)?,
            },
            Content::ClrAsk {
                desired,
                reason,
                spec,
            } => Content::ClrAsk {
                desired: *desired,
                reason: *reason,
                spec: spec.copy(alloc)?,
            },
            Content::ClrAnswer { code } => Content::ClrAnswer { code: *code },
            Content::Other { opcode, desired } => Content::Other {
                opcode: *opcode,
                desired: *desired,
            },
            Content::Overall { opcode, code } => Content::Overall {
                opcode: *opcode,
                code: *code,
            },
            Content::OtherAnswer { opcode, code } => Content::OtherAnswer {
                opcode: *opcode,
                code: *code,
            },
        })
    }
}

/// A message without its reserved bits, its signature, its spare octets and a request's RESPONSE.
/// These may be anything in a message that is read; in one that is written they are zero or absent.
#[derive(Debug, PartialEq, Eq, Drop)]
pub struct Htcp {
    /// MINOR of HEADER. `decode` takes any, `encode` writes 0. MAJOR is 0.
    pub minor: u8,
    /// TRANS-ID. A response repeats that of its request.
    pub trans: u32,
    /// What it asks or answers.
    pub content: Content,
}

impl Htcp {
    /// A second copy. The error is want of memory.
    pub fn copy(&self, alloc: Global) -> Result<Htcp, AllocError>
        ensures { IfOk result (λ copy. copy ≡ self.now) }
    {
        Ok(Htcp {
            minor: self.minor,
            trans: self.trans,
            content: self.content.copy(alloc)?,
        })
    }
}
