ghost use Rattle.std.specs.Prelude.{◌≡◌, ◌==◌, ◌&&◌, true, IfOk, IfErr, Some, option_map};
ghost use Rattle.values_tables.specs.Ranges.{is_foreign_id};
ghost use Rattle.values_tables.specs.Reading.{tables_in};
ghost use Rattle.roster.specs.Faults.{IsFirstOf};
ghost use Rattle.roster.specs.Judged.{IsRoster};
ghost use Rattle.roster.specs.Lookups.{is_member as is_member_of, member_of as member_by_id};
ghost use Rattle.roster.specs.Lookups.{is_master as is_master_at, is_own as is_own_address};
ghost use Rattle.roster.specs.Lookups.{peers_of, peers_in as peers_of_entry, origin_at};
ghost use Rattle.roster.specs.Lookups.{member_at as member_by_address};
ghost use Rattle.roster.specs.Lookups.{names_sibling as calls_sibling};
ghost use Rattle.roster.specs.Lookups.{is_founding as is_founding_at};
ghost use Rattle.roster.specs.Lookups.{is_founding_in as is_founding_entry};
ghost use Rattle.roster.specs.Lookups.{address_by as address_for, is_origin_of as is_origin_for};
ghost use Rattle.values_tables.specs.Roles.{is_sibling as is_sibling_role};
ghost use Rattle.std.specs.List.{find, list_any};

use crate::copying::copy_of_tables;
use crate::judge::judge;
use crate::{Address, Cache, Limits, Member, Origin, Peer, RosterError, Udp};
use std::alloc::{AllocError, Global};
use std::marker::Model;
use values_tables::Tables;

/// The configuration of a hierarchy: who takes part, whom each asks, and where all of them are.
///
/// A contract sees it as its tables. Its invariant is `IsRoster`: the tables are in their ranges,
/// no two share an id, a name or an address, each peer is known, and no chain of parents leads back
/// to where it began.
#[derive(Debug, Drop)]
pub struct Roster {
    tables: Tables,
}

impl Model for Roster {
    ghost use Rattle.values_tables.specs.declared.plain.Tables.{Tables};
    ghost use Rattle.roster.specs.Judged.{IsRoster};

    ghost Value = { Tables };

    ghost view = { λ r. r.tables };

    ghost invariant = { λ r. IsRoster r.tables };
}

impl Roster {
    /// The roster that a text says. The error has the first fault, in the order of
    /// [`RosterFault`](crate::RosterFault); `NoMemory` may replace any.
    pub fn read(alloc: Global, text: &str) -> Result<Roster, RosterError>
        ensures ok { IfOk result (λ roster. tables_in text.now ≡ Some (Some roster)) }
        ensures valid { IfOk result IsRoster }
        ensures err { IfErr result (λ error. IsFirstOf text.now error.fault) }
    {
        let tables = Tables::read(alloc, text)?;
        match judge(alloc, &tables) {
            Ok(()) => Ok(Roster { tables }),
            Err(error) => Err(error),
        }
    }

    /// The members, 1 to 16, in the order of the text.
    pub fn members(&self) -> &[Member]
        ensures value { result.now ≡ self.now.members }
        ensures valid { IsRoster self.now }
    {
        self.tables.members.as_slice()
    }

    /// The member with this id, if there is one.
    pub fn member(&self, id: u8) -> Option<&Member>
        ensures value { option_map (λ m. m.now) result ≡ member_by_id self.now id }
        ensures valid { IsRoster self.now }
    {
        member_of(self.members(), id)
    }

    /// Whether a member has this id.
    pub fn is_member(&self, id: u8) -> bool
        ensures { result ≡ is_member_of self.now id }
    {
        self.member(id).is_some()
    }

    /// Whether the member with this id is founding. Else it is joining: it takes part once the
    /// master of purges has admitted it.
    pub fn is_founding(&self, id: u8) -> bool
        requires { is_member_of self.now id ≡ true }
        ensures { result ≡ is_founding_at self.now id }
    {
        is_founding_in(self.members(), id)
    }

    /// The peers of the member with this id, at most 23, in the order in which it asks them.
    pub fn peers(&self, id: u8) -> &[Peer]
        requires { is_member_of self.now id ≡ true }
        ensures value { result.now ≡ peers_of self.now id }
        ensures valid { IsRoster self.now }
    {
        peers_in(self.members(), id)
    }

    /// The foreign caches, at most 8, in the order of the text.
    pub fn foreign(&self) -> &[Cache]
        ensures { result.now ≡ self.now.foreign }
    {
        self.tables.foreign.as_slice()
    }

    /// The address to connect to for the origin of this host and port. The host is compared octet
    /// for octet, so it has to be in lower case. `None` if the roster has no such origin.
    pub fn origin(&self, host: &[u8], port: u16) -> Option<Address>
        ensures { result ≡ origin_at self.now host.now port }
    {
        let origins = self.tables.origins.as_slice();
        match origins
            .iter()
            .find(|origin| is_origin_of(host, port, *origin))
        {
            Some(origin) => Some(origin.connect),
            None => None,
        }
    }

    /// The address of the master of purges, over UDP.
    pub fn master(&self) -> Address
        ensures { result ≡ self.now.master }
    {
        self.tables.master
    }

    /// Whether this is the address of the master.
    pub fn is_master(&self, address: Address) -> bool
        ensures { result ≡ is_master_at self.now address }
    {
        let master = self.master();
        address.ip == master.ip && address.port == master.port
    }

    /// Whether this is the ICP or HTCP address of a member, or the address of the master.
    pub fn is_own(&self, address: Address) -> bool
        ensures { result ≡ is_own_address self.now address }
    {
        self.is_master(address)
            || self.member_at(address, Udp::Icp).is_some()
            || self.member_at(address, Udp::Htcp).is_some()
    }

    /// The id of the member that has this address for this protocol.
    pub fn member_at(&self, address: Address, by: Udp) -> Option<u8>
        ensures { result ≡ member_by_address self.now address by }
    {
        match self
            .members()
            .iter()
            .find(|member| address_by(by, &member.cache) == address)
        {
            Some(member) => Some(member.cache.id),
            None => None,
        }
    }

    /// Whether the entry of the member `of` names the cache `whom` as a sibling.
    pub fn names_sibling(&self, of: u8, whom: u8) -> bool
        ensures { result ≡ calls_sibling self.now of whom }
    {
        has_sibling(peers_in(self.members(), of), whom)
    }

    /// A second copy. The error is want of memory.
    pub fn copy(&self, alloc: Global) -> Result<Roster, AllocError>
        ensures value { IfOk result (λ copy. copy ≡ self.now) }
        ensures valid { IsRoster self.now }
    {
        Ok(Roster {
            tables: copy_of_tables(alloc, &self.tables)?,
        })
    }

    /// The limits of each node.
    pub fn limits(&self) -> Limits
        ensures { result ≡ self.now.limits }
    {
        self.tables.limits
    }
}

/// The greatest id that a member may have.
pub const LAST_MEMBER: u8 = 16;

/// Whether the id is one of a foreign cache: 101 to 108.
pub fn is_foreign(id: u8) -> bool
    ensures { result ≡ is_foreign_id id }
{
    (101..=108).contains(&id)
}

/// The address of a cache for a protocol.
pub fn address_by(by: Udp, cache: &Cache) -> Address
    ensures { result ≡ address_for by cache.now }
{
    match by {
        Udp::Icp => cache.icp,
        Udp::Htcp => cache.htcp,
    }
}

/// Whether this is the origin of this host and port.
fn is_origin_of(host: &[u8], port: u16, origin: &Origin) -> bool
    ensures { result ≡ is_origin_for host.now port origin.now }
{
    origin.host.as_slice() == host && origin.port == port
}

/// The member with this id.
pub(crate) fn member_of(members: &[Member], id: u8) -> Option<&Member>
    ensures { option_map (λ m. m.now) result ≡ find (λ m. m.cache.id == id) members.now }
{
    members.iter().find(|member| member.cache.id == id)
}

/// Whether the member with this id is founding; `false` if there is no such member.
fn is_founding_in(members: &[Member], id: u8) -> bool
    ensures { result ≡ is_founding_entry (find (λ m. m.cache.id == id) members.now) }
{
    match member_of(members, id) {
        Some(member) => !member.joins,
        None => false,
    }
}

/// The peers of the member with this id; none if there is no such member.
pub(crate) fn peers_in(members: &[Member], id: u8) -> &[Peer]
    ensures { result.now ≡ peers_of_entry (find (λ m. m.cache.id == id) members.now) }
{
    match member_of(members, id) {
        Some(member) => member.peers.as_slice(),
        None => &[],
    }
}

/// Whether the cache `whom` is among the peers as a sibling.
fn has_sibling(peers: &[Peer], whom: u8) -> bool
    ensures { result ≡ list_any (λ p. (p.id == whom) && is_sibling_role p.role) peers.now }
{
    peers
        .iter()
        .any(|peer| peer.id == whom && peer.role.is_sibling())
}
