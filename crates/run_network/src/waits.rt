//! Requests of members that wait at other members' nodes.
ghost use Rattle.std.specs.Prelude.{◌≡◌, ℕ, [], ◌∷◌, List, ◌==◌, nat_eq, not, false, Some, None};
ghost use Rattle.std.specs.Prelude.{filter, option_map, OnOk, if◌then◌else◌};
ghost use Rattle.std.specs.HashMap.{get};
ghost use Rattle.run_rules.specs.Sent.{Waits as AWait};
ghost use Rattle.run_network.specs.Held.{key_at, HoldsWaits};

use std::alloc::{AllocError, Global};
use std::collections::HashMap;
use url_key::Key;

/// The keys of the requests that wait, by node and block of serials.
///
/// A contract sees them by `key_at`.
#[derive(Drop)]
pub struct Waits<'a> {
    nodes: HashMap<u8, HashMap<u32, &'a Key>>,
}

/// Enters a key under a block, in the place of one that is there.
fn enter<'a>(blocks: &mut HashMap<u32, &'a Key>, block: u32, key: &'a Key) -> Result<(), AllocError>
    ensures { OnOk result ((other : ℕ) →
        option_map (λ k. k.now) (get nat_eq blocks.new other)
        ≡ (if block == other then Some key.now
        else option_map (λ k. k.now) (get nat_eq blocks.old other))) }
{
    blocks.insert(block, key)?;
    Ok(())
}

impl<'a> Waits<'a> {
    /// Nothing waits. Allocates nothing.
    pub(crate) fn new(alloc: Global) -> Waits<'a>
        ensures { HoldsWaits result [] }
    {
        Waits {
            nodes: HashMap::new(alloc),
        }
    }

    /// The key of the request that waits at a node as this block, if any.
    pub(crate) fn key(&self, node: u8, block: u32) -> Option<&'a Key>
        ensures { option_map (λ k. k.now) result ≡ key_at self.now node block }
    {
        match self.nodes.get(&node) {
            Some(blocks) => blocks.get(&block).copied(),
            None => None,
        }
    }

    /// Takes out what waits at a node, by blocks; `put` puts it back. Allocates nothing.
    fn take(&mut self, alloc: Global, node: u8) -> HashMap<u32, &'a Key>
        ensures taken { (block : ℕ) → option_map (λ k. k.now) (get nat_eq result block)
            ≡ key_at self.old node block }
        ensures others { (other block : ℕ) → (node == other) ≡ false →
            key_at self.new other block ≡ key_at self.old other block }
    {
        match self.nodes.remove(&node) {
            Some(blocks) => blocks,
            None => HashMap::new(alloc),
        }
    }

    /// Puts what waits at a node, by blocks.
    fn put(&mut self, node: u8, blocks: HashMap<u32, &'a Key>) -> Result<(), AllocError>
        ensures { OnOk result ((other block : ℕ) →
            key_at self.new other block ≡ (if node == other
            then option_map (λ k. k.now) (get nat_eq blocks.entry block)
            else key_at self.old other block)) }
    {
        self.nodes.insert(node, blocks)?;
        Ok(())
    }

    /// Notes that a request waits at a node as this block, in the place of one that did.
    pub(crate) fn add(
        &mut self,
        alloc: Global,
        node: u8,
        block: u32,
        key: &'a Key,
    ) -> Result<(), AllocError>
        ensures { OnOk result ((waiting : List AWait) → HoldsWaits self.old waiting →
            HoldsWaits self.new (record { node = node; block = block; key = key.now }
            ∷ waiting)) }
    {
        let mut blocks = self.take(alloc, node);
        enter(&mut blocks, block, key)?;
        self.put(node, blocks)
    }

    /// Drops what waits at a node. Allocates nothing.
    pub(crate) fn forget(&mut self, node: u8)
        ensures { (waiting : List AWait) → HoldsWaits self.old waiting →
            HoldsWaits self.new (filter (λ w. not (w.node == node)) waiting) }
    {
        let _ = self.nodes.remove(&node);
    }
}
