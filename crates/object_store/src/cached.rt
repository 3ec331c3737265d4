//! What the store's calls do with the map of its copies.
ghost use Rattle.std.specs.Prelude.{◌≡◌, ◌∷◌, IfOk, IfErr, OnOk, OnErr, map, filter, nat_lt};
ghost use Rattle.object_store.specs.Cached.{IsCached, copies_in, without_each};
ghost use Rattle.object_store.specs.Listed.{without as without_key, fitting, octets as octets_in};
ghost use Rattle.object_store.specs.Listed.{OneEach};

use crate::hashing::Hashing;
use crate::{WebCopy, size};
use lru::LruCache;
use std::alloc::{AllocError, Global};
use url_key::Key;

/// Copies of all copies, the most recent first.
pub(crate) fn copy_all<T: Copy>(
    alloc: Global,
    cache: &LruCache<Key, WebCopy<T>, Hashing>,
) -> Result<Vec<WebCopy<T>>, AllocError>
    ensures { IfOk result (λ made. made.items ≡ copies_in cache.now) }
{
    let mut made = Vec::with_capacity(alloc, cache.len())?;
    for (_, copy) in cache.iter() {
        made.push(copy.copy(alloc)?)?;
    }
    Ok(made)
}

/// Puts a copy in front, drops the old copy of its key, and gives the octets of the others. The
/// error: there was no memory; the map is as before, and the copy comes back.
pub(crate) fn put_first<T: Drop>(
    cache: &mut LruCache<Key, WebCopy<T>, Hashing>,
    octets: u64,
    copy: WebCopy<T>,
) -> Result<u64, (WebCopy<T>, AllocError)>
    requires cached { IsCached cache.old }
    requires one_each { OneEach (copies_in cache.old) }
    requires octets { octets ≡ octets_in (copies_in cache.old) }
    ensures copies { OnOk result (copies_in cache.new ≡ copy
        ∷ without_key copy.key (copies_in cache.old)) }
    ensures octets { IfOk result (λ others.
        others ≡ octets_in (without_key copy.key (copies_in cache.old))) }
    ensures cached { OnOk result (IsCached cache.new) }
    ensures err { OnErr result (cache.new ≡ cache.old) }
    ensures returned { IfErr result (λ refused. refused.0 ≡ copy) }
{
    // The map has room for one more, so it drops no copy by itself.
    let count = cache.len();
    prove!(count < usize::MAX);
    let alloc = *cache.allocator();
    let key = match copy.key.copy(alloc) {
        Ok(key) => key,
        Err(error) => return Err((copy, error)),
    };
    let old = match cache.put(key, copy) {
        Ok(old) => old,
        Err(refused) => return Err((refused.value.1, AllocError)),
    };
    match old {
        None => Ok(octets),
        Some(old) => Ok(octets - size(&old)),
    }
}

/// Drops the least recent copies until the rest is within both limits, and gives the octets of the
/// rest.
pub(crate) fn make_room<T: Drop>(
    cache: &mut LruCache<Key, WebCopy<T>, Hashing>,
    octets: u128,
    count: usize,
    bytes: u64,
) -> u64
    requires cached { IsCached cache.old }
    requires octets { octets ≡ octets_in (copies_in cache.old) }
    ensures copies { copies_in cache.new ≡ fitting count bytes (copies_in cache.old) }
    ensures octets { result ≡ octets_in (copies_in cache.new) }
    ensures cached { IsCached cache.new }
{
    let mut left = octets;
    while cache.len() > count || left > bytes as u128 {
        match cache.pop_lru() {
            None => unreachable!(),
            Some((_, last)) => left -= size(&last) as u128,
        }
    }
    left as u64
}

/// The keys of the copies with a lesser stamp, the most recent first.
pub(crate) fn keys_below<T>(
    alloc: Global,
    cache: &LruCache<Key, WebCopy<T>, Hashing>,
    stamp: u32,
) -> Result<Vec<Key>, AllocError>
    ensures { IfOk result (λ keys.
        keys.items ≡ map (λ c. c.key) (filter (λ c.
        nat_lt c.stamp stamp) (copies_in cache.now))) }
{
    let mut keys = Vec::new(alloc);
    for (_, copy) in cache.iter() {
        if copy.stamp < stamp {
            keys.push(copy.key.copy(alloc)?)?;
        }
    }
    Ok(keys)
}

/// Drops the copies of these keys, and gives the octets of the rest. `octets` are those of all
/// copies before.
pub(crate) fn drop_each<T: Drop>(
    cache: &mut LruCache<Key, WebCopy<T>, Hashing>,
    octets: u64,
    keys: &[Key],
) -> u64
    requires cached { IsCached cache.old }
    requires one_each { OneEach (copies_in cache.old) }
    requires octets { octets ≡ octets_in (copies_in cache.old) }
    ensures copies { copies_in cache.new ≡ without_each keys.now (copies_in cache.old) }
    ensures octets { result ≡ octets_in (copies_in cache.new) }
    ensures cached { IsCached cache.new }
{
    let mut left = octets;
    for key in keys {
        if let Some(copy) = cache.pop(key) {
            left -= size(&copy);
        }
    }
    left
}
