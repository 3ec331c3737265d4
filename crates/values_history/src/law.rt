//! The rule of a history, in the terms of `logbook`.
use logbook::{Gain, Plain, Play, Rule};
use std::marker::PhantomData;

/// The rule: the number that threads share is the length of the history.
pub(crate) struct Law;

impl<E> Rule<E, u64> for Law {
    ghost use Rattle.std.specs.Prelude.{[]};
    ghost use base.Fml.{ftrue};
    ghost use Rattle.values_history.specs.Rules.{IsKept};

    ghost holds = { IsKept };

    ghost first = { [] };

    ghost hinted = { λ n log. Unit {0} };

    ghost shows = { λ log. [] };

    ghost keeps = { λ names log. ftrue };

    ghost moves = { λ ask before after answer. Unit {0} };
}

/// Who adds an entry trades nothing for it.
pub(crate) struct Nothing;

impl<E> Gain<E, u64> for Nothing {
    ghost use base.Fml.{ftrue};

    ghost after = { λ names about answer. ftrue };
}

/// A step that adds an entry.
pub(crate) struct Add;

impl<E> Play<E, u64> for Add {
    ghost use Rattle.values_history.specs.Rules.{Adds};

    ghost then = { Adds };
}

/// Which entry stands for a value.
pub trait Entry<X, E> {
    // The entry.
    ghost of: { X → E };
}

/// A value that is an entry itself.
pub struct Itself;

impl<E> Entry<E, E> for Itself {
    ghost of = { λ entry. entry };
}

/// What an offer of `logbook` asks: that the entry of a value is added.
pub(crate) struct Asks<M> {
    of: PhantomData<M>,
}

impl<X, E, M: Entry<X, E>> Plain<X, E, u64> for Asks<M> {
    ghost use Rattle.std.specs.Prelude.{None};

    ghost ask = { M.of };

    ghost state = { λ value. None };
}
