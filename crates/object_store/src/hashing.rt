ghost use Rattle.std.specs.Prelude.{◌≡◌};

use std::hash::{BuildHasher, DefaultHasher, RandomState};

/// How a store hashes: by SipHash, with fixed keys or with random ones.
#[derive(Clone, Copy)]
pub enum Hashing {
    /// With fixed keys. Who knows them can choose URLs with equal hashes.
    Fixed,
    /// With the keys of a random state, which nobody outside knows.
    Random(RandomState),
}

impl BuildHasher for Hashing {
    ghost use Rattle.object_store.specs.Hashing.{first_hasher};

    type Hasher = DefaultHasher;

    ghost build_hasher = { first_hasher };

    fn build_hasher(&self) -> DefaultHasher {
        match self {
            Hashing::Fixed => DefaultHasher::new(),
            Hashing::Random(state) => state.build_hasher(),
        }
    }
}
