ghost use Rattle.std.specs.Prelude.{◌≡◌, IfOk};
ghost use Rattle.htcp_wire.specs.Clearing.{is_acknowledging as acknowledges};

use std::alloc::{AllocError, Global};
use url_key::Key;
use values_plain::Listed;

/// How far the purge or the admission of a number is.
#[derive(Clone, Copy, Debug, PartialEq, Eq)]
pub enum Status {
    /// The number is 0, or was not given yet.
    Unknown,
    /// It is pending: so many of the members that it needs, 0 to 16, have not acknowledged it.
    Pending(u8),
    /// It was given, and is pending no longer.
    Done,
}

/// A call of a master.
#[derive(Debug, Drop)]
pub enum MasterCall {
    /// Issue a purge of the URL with this key.
    Issue(Key),
    /// Admit the joining node with this id: from then on it takes part in purges.
    Admit(u8),
    /// Take a member's response to a CLR (RFC 2756, section 6.5).
    Acknowledge {
        /// The member's id.
        member: u8,
        /// The response's TRANS-ID.
        trans: u32,
        /// The response's code: 0 (the entity was held and is gone), 1 (it was held and stays), 2
        /// (it was not held).
        code: u8,
    },
    /// List what to send again.
    Due,
    /// Tell the status of this number.
    Status(u32),
}

/// Whether a response to a CLR with this code acknowledges it: 0 (the entity was held and is
/// gone) and 2 (it was not held) do (RFC 2756, section 6.5).
pub fn is_acknowledging(code: u8) -> bool
    ensures { result ≡ acknowledges code }
{
    code == 0 || code == 2
}

/// What a call of a master returns.
#[derive(Debug, Drop)]
pub enum MasterAnswer {
    /// The number that the purge got.
    Issue(u32),
    /// The number that the admission got.
    Admit(u32),
    /// The number that this response has made done, if any.
    Acknowledge(Option<u32>),
    /// Each pending number with the id of each missing member, by number and then by id.
    Due(Listed<(u32, u8)>),
    /// The status of the number.
    Status(Status),
}

impl MasterCall {
    /// A second copy of the call.
    pub fn copy(&self, alloc: Global) -> Result<MasterCall, AllocError>
        ensures { IfOk result (λ copy. copy ≡ self.now) }
    {
        Ok(match self {
            MasterCall::Issue(key) => MasterCall::Issue(key.copy(alloc)?),
            MasterCall::Admit(id) => MasterCall::Admit(*id),
            MasterCall::Acknowledge {
                member,
                trans,
                code,
            } => MasterCall::Acknowledge {
                member: *member,
                trans: *trans,
                code: *code,
            },
            MasterCall::Due => MasterCall::Due,
            MasterCall::Status(number) => MasterCall::Status(*number),
        })
    }
}

impl MasterAnswer {
    /// A second copy of the answer.
    pub fn copy(&self, alloc: Global) -> Result<MasterAnswer, AllocError>
        ensures { IfOk result (λ copy. copy ≡ self.now) }
    {
        Ok(match self {
            MasterAnswer::Issue(number) => MasterAnswer::Issue(*number),
            MasterAnswer::Admit(number) => MasterAnswer::Admit(*number),
            MasterAnswer::Acknowledge(done) => MasterAnswer::Acknowledge(*done),
            MasterAnswer::Due(pairs) => MasterAnswer::Due(Listed::new(Vec::from_slice(
                alloc,
                pairs.as_slice(),
            )?)),
            MasterAnswer::Status(status) => MasterAnswer::Status(*status),
        })
    }
}
