//! Lists of items (bags), each under a number.
ghost use Rattle.std.specs.Prelude.{◌≡◌, ℕ, ◌==◌, ◌∷◌, ◌++◌, [], OnOk, if◌then◌else◌};
ghost use Rattle.run_network.specs.Bags.{bag_of};

use std::alloc::{AllocError, Global};
use std::collections::HashMap;

/// Items in bags, each bag under a number (a print or a TRANS-ID).
///
/// A contract sees the items of each number, by `bag_of`.
#[derive(Drop)]
pub struct Bags<T> {
    bags: HashMap<u64, Vec<T>>,
}

impl<T> Bags<T> {
    /// No items. Allocates nothing.
    pub(crate) fn new(alloc: Global) -> Bags<T>
        ensures { (number : ℕ) → bag_of result number ≡ [] }
    {
        Bags {
            bags: HashMap::new(alloc),
        }
    }

    /// The items under a number.
    pub(crate) fn bag(&self, number: u64) -> &[T]
        ensures { result.now ≡ bag_of self.now number }
    {
        match self.bags.get(&number) {
            Some(bag) => bag.as_slice(),
            None => &[],
        }
    }
}

impl<T: Drop> Bags<T> {
    /// Adds an item under a number.
    ///
    /// Fault: an allocation failed; nothing is promised of the bags then.
    pub(crate) fn put(&mut self, alloc: Global, number: u64, item: T) -> Result<(), AllocError>
        ensures { OnOk result ((other : ℕ) →
            bag_of self.new other ≡ (if number == other then bag_of self.old number ++ item ∷ []
            else bag_of self.old other)) }
    {
        let mut bag = match self.bags.remove(&number) {
            Some(bag) => bag,
            None => Vec::new(alloc),
        };
        bag.push(item)?;
        self.bags.insert(number, bag)?;
        Ok(())
    }
}
