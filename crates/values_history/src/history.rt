//! A history, its head and its fronts.
ghost use Rattle.std.specs.Prelude.{◌≡◌, ◌<◌, ◌^◌, ◌++◌, ◌∷◌, [], length, MatchBool};
ghost use mathlib.Core.List.{IsPrefix};
ghost use Rattle.values_history.specs.Rules.{head_of};

use crate::law::{Add, Asks, Entry, Itself, Law, Nothing};
use logbook::{Offer, Seen, Start, Word};
use std::marker::{Brand, Model, PhantomData};

/// Which history it is.
pub trait Run {
    ghost use Rattle.logbook.specs.Pages.{Book};

    ghost book: { Book };
}

impl Run for Brand {
    ghost book = { record { number = 0; log_name = 0; cells_name = 0 } };
}

/// A history without entries, which has no name yet.
pub struct NewHistory<E> {
    head: Word<E, u64, Law>,
    seen: Seen<E, u64, Law>,
    pub ghost empty: { seen.log ≡ [] },
    pub ghost head_is: { head ≡ head_of seen.book },
}

impl<E> NewHistory<E> {
    /// A history without entries.
    pub fn new() -> NewHistory<E> {
        let (seen, mut first, _second) = Seen::open(Start::alone(), 0, 0);
        NewHistory {
            head: Word::tracked(0, &mut first),
            seen,
        }
    }

    /// The head of the history under a name, and the front without entries.
    pub fn named<J: Run>(self) -> (Head<E, J>, Front<E, J>)
        requires { self.seen.book ≡ J.book }
        ensures { result.1 ≡ [] }
    {
        let NewHistory { head, seen } = self;
        (
            Head {
                word: head,
                of: PhantomData,
            },
            Front {
                known: Known { len: 0, seen },
                of: PhantomData,
            },
        )
    }
}

/// The end of a history, where entries are added. It has the history's length.
#[derive(Drop)]
pub struct Head<E, J: Run> {
    word: Word<E, u64, Law>,
    of: PhantomData<J>,
    ghost head_is: { word ≡ head_of J.book },
}

/// Entries that were seen, and how many they are.
#[derive(Drop)]
struct Known<E> {
    len: u64,
    seen: Seen<E, u64, Law>,
    ghost counted: { len ≡ length seen.log },
}

impl<E> Known<E> {
    /// The same, for another owner.
    fn again(&self) -> Known<E>
        ensures { result.seen ≡ self.now.seen }
    {
        Known {
            len: self.len,
            seen: self.seen.again(),
        }
    }

    /// Adds the entry of a value behind them at this head, where they are all that was added there.
    /// Returns whether they are; else nothing is added.
    fn extend<X, M: Entry<X, E>>(&mut self, head: &Word<E, u64, Law>, value: &X) -> bool
        requires head { head.now ≡ head_of self.old.seen.book }
        ensures added { MatchBool result
            (self.new.seen.log ≡ self.old.seen.log ++ M.of value.now ∷ [])
            (self.new.seen ≡ self.old.seen) }
        ensures book { self.new.seen.book ≡ self.old.seen.book }
        ensures bound { length self.new.seen.log < 2 ^ 64 }
    {
        let len = self.len;
        if len == u64::MAX {
            return false;
        }
        let mut seen = self.seen.again();
        let mut offer: Offer<E, u64, Law, Nothing> = seen.plain::<Nothing, X, Asks<M>>(value);
        let mut pen = seen.no_pen();
        let found = head.compare_exchange::<Add, Nothing>(
            len,
            len + 1,
            &mut seen,
            &mut offer,
            &mut pen,
        );
        if found != len {
            return false;
        }
        *self = Known { len: len + 1, seen };
        true
    }
}

/// A beginning of a history. A contract sees its entries.
#[derive(Drop)]
pub struct Front<E, J: Run> {
    known: Known<E>,
    of: PhantomData<J>,
}

impl<E, J: Run> Model for Front<E, J> {
    ghost use Rattle.std.specs.Prelude.{◌≡◌, List};

    ghost Value = { List E };

    ghost view = { λ f. f.known.seen.log };

    ghost invariant = { λ f. f.known.seen.book ≡ J.book };
}

impl<E, J: Run> Front<E, J> {
    /// How many entries it has.
    pub fn len(&self) -> u64
        ensures { result ≡ length self.now }
    {
        self.known.len
    }

    /// The same beginning, for another owner.
    pub fn again(&self) -> Front<E, J>
        ensures { result ≡ self.now }
    {
        Front {
            known: self.known.again(),
            of: PhantomData,
        }
    }

    /// Whether it is a beginning of the other: of two fronts of one history the shorter one begins
    /// the longer one.
    pub fn begins(&self, other: &Front<E, J>) -> bool
        ensures { MatchBool result (IsPrefix self.now other.now) (IsPrefix other.now self.now) }
    {
        let mut both = self.known.seen.again();
        both.learn(&other.known.seen);
        self.known.len <= other.known.len
    }

    /// [`Front::add_as`] with an entry that is at hand.
    pub fn add(&mut self, head: &Head<E, J>, entry: &E) -> bool
        ensures added { MatchBool result (self.new ≡ self.old ++ entry.now ∷ [])
            (self.new ≡ self.old) }
        ensures bound { length self.new < 2 ^ 64 }
    {
        self.add_as::<E, Itself>(head, entry)
    }

    /// Adds the entry of a value to the history, where this front is the whole of it. Returns
    /// whether it is; else nothing is added.
    pub fn add_as<X, M: Entry<X, E>>(&mut self, head: &Head<E, J>, value: &X) -> bool
        ensures added { MatchBool result (self.new ≡ self.old ++ M.of value.now ∷ [])
            (self.new ≡ self.old) }
        ensures bound { length self.new < 2 ^ 64 }
    {
        self.known.extend::<X, M>(&head.word, value)
    }
}

/// A list of entries that one owner keeps, such as its own entries of a history that others share.
/// Only proofs see it.
#[derive(Drop)]
pub struct Own<E> {
    head: Word<E, u64, Law>,
    known: Known<E>,
}

impl<E> Model for Own<E> {
    ghost use Rattle.std.specs.Prelude.{◌≡◌, List};
    ghost use Rattle.values_history.specs.Rules.{head_of};

    ghost Value = { List E };

    ghost view = { λ own. own.known.seen.log };

    ghost invariant = { λ own. own.head ≡ head_of own.known.seen.book };
}

impl<E> Own<E> {
    /// A list without entries.
    pub fn new() -> Own<E>
        ensures { result ≡ [] }
    {
        let NewHistory { head, seen } = NewHistory::new();
        Own {
            head,
            known: Known { len: 0, seen },
        }
    }

    /// Adds the entry of a value. Returns whether it is added, which it always is, unless there are
    /// 2^64 - 1 already; else nothing changes.
    pub fn add_as<X, M: Entry<X, E>>(&mut self, value: &X) -> bool
        ensures { MatchBool result (self.new ≡ self.old ++ M.of value.now ∷ [])
            (self.new ≡ self.old) }
    {
        self.known.extend::<X, M>(&self.head, value)
    }
}
