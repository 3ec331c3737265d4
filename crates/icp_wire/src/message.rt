ghost use Rattle.std.specs.Prelude.{◌≡◌, IfOk};
ghost use Rattle.icp_wire.specs.Names.{icp_op_name};

use std::alloc::{AllocError, Global};
use values_plain::Octets;

/// The greatest length of a message in octets, header included (RFC 2186, "Message Length").
pub const LONGEST_MESSAGE: usize = 16_384;

/// The length of a header in octets (RFC 2186, "ICP Message Format").
pub(crate) const HEADER_LENGTH: usize = 20;

/// The length in octets of an address; options and option data have it too.
pub(crate) const ADDRESS_LENGTH: usize = 4;

/// The only version of ICP that is read and written.
pub(crate) const VERSION: u8 = 2;

/// What a message asks or answers: the opcodes that are read (RFC 2186, "ICP Opcodes"). SECHO and
/// DECHO are not among them.
#[derive(Clone, Copy, Debug, PartialEq, Eq, Hash)]
pub enum IcpOp {
    /// ICP_OP_QUERY: does the receiver hold the URL?
    Query = 1,
    /// ICP_OP_HIT: the sender holds it.
    Hit = 2,
    /// ICP_OP_MISS: the sender does not hold it, and may be asked to fetch it.
    Miss = 3,
    /// ICP_OP_ERR: the query made no sense to the sender.
    Error = 4,
    /// ICP_OP_MISS_NOFETCH: the sender does not hold it, and does not want to be asked to fetch it.
    MissNoFetch = 21,
    /// ICP_OP_DENIED: the receiver may not fetch it from the sender.
    Denied = 22,
    /// ICP_OP_HIT_OBJ: the sender holds it, and the object is in the message.
    HitObj = 23,
}

impl IcpOp {
    /// The name that scripts print: the name of the variant.
    pub const fn name(self) -> &'static str
        ensures { result.now ≡ icp_op_name self }
    {
        match self {
            IcpOp::Query => "Query",
            IcpOp::Hit => "Hit",
            IcpOp::Miss => "Miss",
            IcpOp::Error => "Error",
            IcpOp::MissNoFetch => "MissNoFetch",
            IcpOp::Denied => "Denied",
            IcpOp::HitObj => "HitObj",
        }
    }
}

/// A message without its options, option data and addresses. These may be anything in a message
/// that is read, and are zero in one that is written.
#[derive(Debug, PartialEq, Eq, Drop)]
pub struct Icp {
    /// What it asks or answers.
    pub op: IcpOp,
    /// The request number. A reply repeats that of its query.
    pub number: u32,
    /// The URL, octet for octet, without the zero octet that ends it. It may be empty, or no URL at
    /// all: this crate does not look into it.
    pub url: Octets,
    /// The object of a `HitObj`; empty in all others.
    pub object: Octets,
}

impl Icp {
    /// A second copy. The error is want of memory.
    pub fn copy(&self, alloc: Global) -> Result<Icp, AllocError>
        ensures { IfOk result (λ copy. copy ≡ self.now) }
    {
        Ok(Icp {
            op: self.op,
            number: self.number,
            url: self.url.copy(alloc)?,
            object: self.object.copy(alloc)?,
        })
    }
}
