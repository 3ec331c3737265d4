//! A value that only proofs see.
ghost use Rattle.std.specs.Prelude.{◌≡◌, true, IfSome};
ghost use Rattle.node_seats.specs.Kept.{has_some};

use std::marker::Model;
use values_history::{Itself, Own};

/// A value that only proofs see, such as one that was moved on. In memory it is two numbers.
///
/// A contract sees the value.
#[derive(Drop)]
pub(crate) struct Kept<E> {
    own: Own<E>,
    ghost some: { has_some own ≡ true },
}

impl<E> Model for Kept<E> {
    ghost use Rattle.node_seats.specs.Kept.{first_of};

    ghost Value = { E };

    ghost view = { λ kept. first_of kept.own kept.some };
}

impl<E> Kept<E> {
    /// Keeps a value for proofs. It takes no memory, and None never comes.
    pub(crate) fn of(value: &E) -> Option<Kept<E>>
        ensures { IfSome result (λ kept. kept ≡ value.now) }
    {
        let mut own = Own::new();
        if !own.add_as::<E, Itself>(value) {
            return None;
        }
        Some(Kept { own })
    }
}
