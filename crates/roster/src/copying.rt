//! Second copies of the tables of a roster.
ghost use Rattle.std.specs.Prelude.{◌≡◌, IfOk};

use crate::{Cache, Member, Origin};
use std::alloc::{AllocError, Global};
use values_plain::Listed;
use values_tables::Tables;

/// A second copy of a cache.
fn copy_of_cache(alloc: Global, cache: &Cache) -> Result<Cache, AllocError>
    ensures { IfOk result (λ copy. copy ≡ cache.now) }
{
    Ok(Cache {
        id: cache.id,
        name: Listed::new(Vec::from_slice(alloc, cache.name.as_slice())?),
        http: cache.http,
        icp: cache.icp,
        htcp: cache.htcp,
    })
}

/// A second copy of a member.
fn copy_of_member(alloc: Global, member: &Member) -> Result<Member, AllocError>
    ensures { IfOk result (λ copy. copy ≡ member.now) }
{
    Ok(Member {
        cache: copy_of_cache(alloc, &member.cache)?,
        joins: member.joins,
        peers: Listed::new(Vec::from_slice(alloc, member.peers.as_slice())?),
    })
}

/// A second copy of an origin.
fn copy_of_origin(alloc: Global, origin: &Origin) -> Result<Origin, AllocError>
    ensures { IfOk result (λ copy. copy ≡ origin.now) }
{
    Ok(Origin {
        host: Listed::new(Vec::from_slice(alloc, origin.host.as_slice())?),
        port: origin.port,
        connect: origin.connect,
    })
}

/// A second copy of members.
fn copy_of_members(alloc: Global, members: &[Member]) -> Result<Vec<Member>, AllocError>
    ensures { IfOk result (λ copy. copy.items ≡ members.now) }
{
    let mut copy = Vec::with_capacity(alloc, members.len())?;
    for member in members {
        copy.push(copy_of_member(alloc, member)?)?;
    }
    Ok(copy)
}

/// A second copy of caches.
fn copy_of_caches(alloc: Global, caches: &[Cache]) -> Result<Vec<Cache>, AllocError>
    ensures { IfOk result (λ copy. copy.items ≡ caches.now) }
{
    let mut copy = Vec::with_capacity(alloc, caches.len())?;
    for cache in caches {
        copy.push(copy_of_cache(alloc, cache)?)?;
    }
    Ok(copy)
}

/// A second copy of origins.
fn copy_of_origins(alloc: Global, origins: &[Origin]) -> Result<Vec<Origin>, AllocError>
    ensures { IfOk result (λ copy. copy.items ≡ origins.now) }
{
    let mut copy = Vec::with_capacity(alloc, origins.len())?;
    for origin in origins {
        copy.push(copy_of_origin(alloc, origin)?)?;
    }
    Ok(copy)
}

/// A second copy of tables.
pub(crate) fn copy_of_tables(alloc: Global, tables: &Tables) -> Result<Tables, AllocError>
    ensures { IfOk result (λ copy. copy ≡ tables.now) }
{
    Ok(Tables {
        limits: tables.limits,
        master: tables.master,
        members: Listed::new(copy_of_members(alloc, tables.members.as_slice())?),
        foreign: Listed::new(copy_of_caches(alloc, tables.foreign.as_slice())?),
        origins: Listed::new(copy_of_origins(alloc, tables.origins.as_slice())?),
    })
}
