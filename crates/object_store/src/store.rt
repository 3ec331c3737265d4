ghost use Rattle.std.specs.Prelude.{◌≡◌, ◌≤◌, ◌+◌, ◌-◌, [], ◌∷◌, MatchOption, Some, None, IfOk};
ghost use Rattle.std.specs.Prelude.{IfErr, OnOk, OnErr, option_map, is_some, length, nat_eq};
ghost use Rattle.std.specs.Prelude.{nat_lt, count_by, slice_get};
ghost use Rattle.object_store.specs.Copy.{size as size_of_copy};
ghost use Rattle.object_store.specs.Listed.{copy_of as copy_by_key, without as without_key};
ghost use Rattle.object_store.specs.Listed.{to_front, fitting, octets, without_below};
ghost use Rattle.object_store.specs.Listed.{without_all_below};
ghost use Rattle.std.specs.Borrow.{sem};

use crate::cached::{copy_all, drop_each, keys_below, make_room, put_first};
use crate::hashing::Hashing;
use crate::{WebCopy, size};
use lru::LruCache;
use std::alloc::{AllocError, Global};
use std::hash::RandomState;
use std::marker::Model;
use url_key::Key;

/// The outcome of a put.
#[derive(Clone, Copy, Debug, PartialEq, Eq)]
pub enum Put {
    /// The copy alone has more octets than the store may hold. Nothing changed.
    TooLarge,
    /// The store holds a copy of the key with a greater stamp. Nothing changed.
    Kept,
    /// The copy is in the store, as the most recent; the key's old copy, and the least recent
    /// copies that no longer fit, are gone.
    Stored,
}

/// Copies within two limits, the most recent first, at most one of each key.
///
/// A contract sees the limits and the list of the copies. In memory, the copies lie in a hash map
/// with a linked list, each under a copy of its key. A look-up takes expected constant time and
/// does not allocate.
#[derive(Drop)]
pub struct Store<T> {
    limit_count: usize,
    limit_bytes: u64,
    cache: LruCache<Key, WebCopy<T>, Hashing>,
    octets: u64,
}

impl<T> Model for Store<T> {
    ghost use Rattle.object_store.specs.Held.{Held};
    ghost use Rattle.object_store.specs.Counted.{IsCounted};
    ghost use Rattle.object_store.specs.Cached.{IsCached, copies_in};

    ghost Value = { Held T };

    ghost view = { λ s. record {
      limit_count = s.limit_count;
      limit_bytes = s.limit_bytes;
      copies = copies_in s.cache;
    } };

    ghost invariant = { λ s. IsCounted (record {
      limit_count = s.limit_count;
      limit_bytes = s.limit_bytes;
      copies = copies_in s.cache;
    }) s.octets × IsCached s.cache };
}

impl<T> Store<T> {
    ghost use Rattle.object_store.specs.Looked.{EndsInFront};
    ghost use Rattle.object_store.specs.Held.{Held, IsStore, is_outdone_by, put_answer, after_put};
    ghost use Rattle.object_store.specs.Held.{with_copies};

    /// An empty store for at most `limit_count` copies with at most `limit_bytes` octets together,
    /// both at least 1.
    ///
    /// It hashes with fixed keys. Where strangers choose the URLs, use
    /// [`Store::with_random_keys`].
    pub fn new(alloc: Global, limit_count: usize, limit_bytes: u64) -> Result<Store<T>, AllocError>
        requires count { 1 ≤ limit_count }
        requires bytes { 1 ≤ limit_bytes }
        ensures { IfOk result (λ store. store ≡ record {
          limit_count = limit_count;
          limit_bytes = limit_bytes;
          copies = [];
        }) }
    {
        Store::with_hashing(alloc, limit_count, limit_bytes, Hashing::Fixed)
    }

    /// The same, for URLs that strangers choose: it hashes with these random keys, so that nobody
    /// outside can choose URLs whose look-ups are slow. Several stores may share the keys.
    pub fn with_random_keys(
        alloc: Global,
        limit_count: usize,
        limit_bytes: u64,
        keys: RandomState,
    ) -> Result<Store<T>, AllocError>
        requires count { 1 ≤ limit_count }
        requires bytes { 1 ≤ limit_bytes }
        ensures { IfOk result (λ store. store ≡ record {
          limit_count = limit_count;
          limit_bytes = limit_bytes;
          copies = [];
        }) }
    {
        Store::with_hashing(alloc, limit_count, limit_bytes, Hashing::Random(keys))
    }

    /// An empty store that hashes so.
    fn with_hashing(
        alloc: Global,
        limit_count: usize,
        limit_bytes: u64,
        hashing: Hashing,
    ) -> Result<Store<T>, AllocError>
        requires count { 1 ≤ limit_count }
        requires bytes { 1 ≤ limit_bytes }
        ensures { IfOk result (λ store. store ≡ record {
          limit_count = limit_count;
          limit_bytes = limit_bytes;
          copies = [];
        }) }
    {
        let cache = LruCache::unbounded_with_hasher(alloc, hashing)?;
        Ok(Store {
            limit_count,
            limit_bytes,
            cache,
            octets: 0,
        })
    }

    /// The number of copies in the store.
    pub fn len(&self) -> usize
        ensures value { result ≡ length self.now.copies }
        ensures valid { IsStore self.now }
    {
        self.cache.len()
    }

    /// Whether the store holds no copy.
    pub fn is_empty(&self) -> bool
        ensures { result ≡ nat_eq (length self.now.copies) 0 }
    {
        self.cache.is_empty()
    }

    /// The octets of the copies together.
    pub fn bytes(&self) -> u64
        ensures { result ≡ octets self.now.copies }
    {
        self.octets
    }

    /// The copy of the key. The order stays. It does not allocate.
    pub fn peek(&self, key: &Key) -> Option<&WebCopy<T>>
        ensures { option_map (λ c. c.now) result ≡ copy_by_key key.now self.now.copies }
    {
        self.cache.peek(key)
    }

    /// The copy of the key, which becomes the most recent.
    pub fn look(&mut self, key: &Key) -> Option<&WebCopy<T>>
        ensures* order { sem 𝓛 (EndsInFront T.row self.entry key.now) }
        ensures found { option_map (λ c. c.now) result ≡ copy_by_key key.now self.old.copies }
    {
        if self.bring(key) {
            self.most_recent()
        } else {
            None
        }
    }

    /// Makes the copy of the key, if there is one, the most recent.
    pub fn refresh(&mut self, key: &Key)
        ensures { self.new ≡ with_copies self.old (to_front key.now self.old.copies) }
    {
        self.bring(key);
    }

    /// Makes the copy of the key the most recent. Returns whether there is one.
    fn bring(&mut self, key: &Key) -> bool
        ensures answer { result ≡ is_some (copy_by_key key.now self.old.copies) }
        ensures moved { self.new ≡ with_copies self.old (to_front key.now self.old.copies) }
    {
        self.cache.promote(key)
    }

    /// The most recent copy.
    fn most_recent(&self) -> Option<&WebCopy<T>>
        ensures { option_map (λ c. c.now) result ≡ slice_get self.now.copies 0 }
    {
        match self.cache.peek_mru() {
            Some((_, copy)) => Some(copy),
            None => None,
        }
    }
}

impl<T: Copy> Store<T> {
    /// All copies, the most recent first. They share fields and bodies with those in the store.
    pub fn copies(&self, alloc: Global) -> Result<Vec<WebCopy<T>>, AllocError>
        ensures { IfOk result (λ copies. copies.items ≡ self.now.copies) }
    {
        copy_all(alloc, &self.cache)
    }
}

impl<T: Drop> Store<T> {
    ghost use Rattle.object_store.specs.Held.{Held, is_outdone_by, is_older_than, put_answer};
    ghost use Rattle.object_store.specs.Held.{after_put, with_copies};

    /// Puts a copy into the store as the most recent, unless it alone is too large or the store
    /// holds a copy of the key with a greater stamp. A copy with an equal stamp is replaced.
    ///
    /// The error: there was no memory for one more copy. The store is as before, and the copy
    /// comes back.
    pub fn put(&mut self, copy: WebCopy<T>) -> Result<Put, (WebCopy<T>, AllocError)>
        ensures answer { IfOk result (λ answer. answer ≡ put_answer self.old copy) }
        ensures ok { OnOk result (self.new ≡ after_put self.old copy) }
        ensures err { OnErr result (self.new ≡ self.old) }
        ensures returned { IfErr result (λ refused. refused.0 ≡ copy) }
        ensures only_stored { OnErr result (put_answer self.old copy ≡ Put.Stored) }
    {
        let octets = size(&copy);
        if octets > self.limit_bytes {
            return Ok(Put::TooLarge);
        }
        if self.holds_newer(&copy) {
            return Ok(Put::Kept);
        }
        match self.put_fitting(copy, octets) {
            Ok(()) => Ok(Put::Stored),
            Err(refused) => Err(refused),
        }
    }

    /// Whether the store holds a copy of the same key with a greater stamp.
    fn holds_newer(&self, copy: &WebCopy<T>) -> bool
        ensures { result ≡ is_outdone_by copy.now (copy_by_key copy.now.key self.now.copies) }
    {
        match self.peek(&copy.key) {
            None => false,
            Some(held) => copy.stamp < held.stamp,
        }
    }

    /// Puts a copy of `octets` octets in front, which fits alone, and drops the least recent
    /// copies that no longer fit.
    fn put_fitting(&mut self, copy: WebCopy<T>, octets: u64) -> Result<(), (WebCopy<T>, AllocError)>
        requires size { octets ≡ size_of_copy copy }
        requires fits { octets ≤ self.old.limit_bytes }
        ensures ok { OnOk result (self.new ≡ with_copies self.old
            (fitting self.old.limit_count self.old.limit_bytes
            (copy ∷ without_key copy.key self.old.copies))) }
        ensures err { OnErr result (self.new ≡ self.old) }
        ensures returned { IfErr result (λ refused. refused.0 ≡ copy) }
    {
        let left = match put_first(&mut self.cache, self.octets, copy) {
            Ok(left) => left,
            Err(refused) => return Err(refused),
        };
        let all = left as u128 + octets as u128;
        self.octets = make_room(&mut self.cache, all, self.limit_count, self.limit_bytes);
        Ok(())
    }

    /// Drops the copy of the key. Returns whether there was one.
    pub fn remove(&mut self, key: &Key) -> bool
        ensures answer { result ≡ is_some (copy_by_key key.now self.old.copies) }
        ensures removed { self.new ≡ with_copies self.old (without_key key.now self.old.copies) }
    {
        match self.cache.pop(key) {
            Some(copy) => {
                self.octets -= size(&copy);
                true
            }
            None => false,
        }
    }

    /// Drops the copy of the key if its stamp is less than this. Returns whether it dropped one.
    pub fn clear_below(&mut self, key: &Key, stamp: u32) -> bool
        ensures answer { result ≡ is_older_than stamp (copy_by_key key.now self.old.copies) }
        ensures removed { self.new ≡ with_copies self.old
            (without_below key.now stamp self.old.copies) }
    {
        // (This read opens the invariant of the store for the proof. It does nothing at run time.)
        let _ = &self.limit_count;
        if self.holds_older(key, stamp) {
            self.remove(key)
        } else {
            false
        }
    }

    /// Whether the store holds a copy of the key with a lesser stamp.
    fn holds_older(&self, key: &Key, stamp: u32) -> bool
        ensures { result ≡ is_older_than stamp (copy_by_key key.now self.now.copies) }
    {
        match self.peek(key) {
            None => false,
            Some(held) => held.stamp < stamp,
        }
    }

    /// Drops every copy with a lesser stamp, and returns their number. `AllocError`: there was no
    /// memory, and nothing was dropped.
    pub fn clear_all_below(&mut self, stamp: u32) -> Result<u64, AllocError>
        ensures count { IfOk result (λ count.
            count ≡ count_by (λ c. nat_lt c.stamp stamp) self.old.copies) }
        ensures ok { OnOk result
            (self.new ≡ with_copies self.old (without_all_below stamp self.old.copies)) }
        ensures err { OnErr result (self.new ≡ self.old) }
    {
        let keys = keys_below(*self.cache.allocator(), &self.cache, stamp)?;
        self.octets = drop_each(&mut self.cache, self.octets, &keys);
        Ok(keys.len() as u64)
    }
}
