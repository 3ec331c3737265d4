//! Replies that steps make.
ghost use Rattle.std.specs.Prelude.{◌≡◌, [], ◌∷◌};
ghost use Rattle.node_rules.specs.declared.state.NodeState.{NodeState};
ghost use Rattle.node_rules.specs.State as state;
ghost use Rattle.node_rules.specs.Datagrams as datagrams;

use node_rules::{Begin, Outgoing, Reply, Serve, Served};
use roster::Listed;
use std::alloc::Global;

/// A reply that serves, sends and begins nothing. Allocates nothing.
pub(crate) fn quiet<T>(alloc: Global) -> Reply<T>
    ensures { result ≡ state.quiet }
{
    Reply {
        serve: None,
        send: Listed::new(Vec::new(alloc)),
        begin: None,
    }
}

/// A reply that only begins this. Allocates nothing.
pub(crate) fn begins<T>(alloc: Global, begin: Begin) -> Reply<T>
    ensures { result ≡ state.beginning begin }
{
    Reply {
        serve: None,
        send: Listed::new(Vec::new(alloc)),
        begin: Some(begin),
    }
}

/// A reply that only serves this. Allocates nothing.
pub(crate) fn serves<T>(
    alloc: Global,
    waiter: Option<u32>,
    asker: Option<u8>,
    served: Served<T>,
) -> Reply<T>
    ensures { result ≡ state.serving waiter asker served }
{
    Reply {
        serve: Some(Serve {
            waiter,
            asker,
            served,
        }),
        send: Listed::new(Vec::new(alloc)),
        begin: None,
    }
}

/// A reply that only sends one message. Allocates nothing.
pub(crate) fn sends<T>(message: Outgoing) -> Reply<T>
    ensures { result ≡ state.sending (message ∷ []) }
{
    Reply {
        serve: None,
        send: Listed::one(message),
        begin: None,
    }
}

/// The same, only if a response is desired (RFC 2756, "RD"); else a reply that does nothing.
/// Allocates nothing.
pub(crate) fn sends_if<T>(alloc: Global, desired: bool, message: Outgoing) -> Reply<T>
    ensures { (s : NodeState T) →
        datagrams.if_desired s desired message.to message.message ≡ state.replies s result }
{
    if desired {
        sends(message)
    } else {
        quiet(alloc)
    }
}
