//! Reads the tables of each kind.
ghost use Rattle.std.specs.Prelude.{◌≡◌, ◌<◌, true, MatchResult, Some, None, option_map};
ghost use Rattle.std.specs.Prelude.{option_and_then, string_bytes, codes};
ghost use Rattle.std.specs.List.{list_all};
ghost use Rattle.std.specs.BTreeMap.{keys};
ghost use Rattle.toml.specs.Data.{Data, get_member};
ghost use Rattle.toml.specs.View.{view, table_view, items_view};
ghost use Rattle.values_tables.specs.Fault.{IsFieldFault};
ghost use Rattle.values_tables.specs.Keys.{keys_of, is_among, has_only as has_only_keys};
ghost use Rattle.values_tables.specs.Ranges.{is_peer, is_peer_id as may_be_peer, is_foreign};
ghost use Rattle.values_tables.specs.Ranges.{is_member, is_origin, is_cache, is_between};
ghost use Rattle.values_tables.specs.Reading.{table_in, peer_of, cache_of, foreign_of, member_of};
ghost use Rattle.values_tables.specs.Reading.{origin_of, list_in, all_of, number as number_within};
ghost use Rattle.values_tables.specs.Reading.{checked};

use crate::fields::{flag, host, ip, name, number, port, role, udp, value_at};
use crate::{Cache, Member, Origin, Peer, TableKind, TablesFault, TextPlace};
use std::alloc::Global;
use toml::{Table, Value};
use values_plain::{Address, Listed};

/// A table that may stand several times in its list.
pub(crate) trait Entry: Sized + Drop {
    ghost use Rattle.std.specs.Prelude.{Bool, Option, true, Some, None, ◌≡◌, MatchResult};
    ghost use Rattle.toml.specs.Data.{Data};

    /// What a value says, None if it is bad.
    ghost reads: { Data → Option Self };

    /// Whether everything in the entry is in its range.
    ghost is_sound: { Self → Bool };

    /// What a value says. `place` is where it is in the text.
    fn read(alloc: Global, value: &Value, place: TextPlace) -> Result<Self, TablesFault>
        ensures { MatchResult result
            (λ x. (reads (view value.now) ≡ Some x) × (is_sound x ≡ true))
            (λ fault. IsFieldFault fault (reads (view value.now) ≡ None)) };
}

/// Whether a table of this kind may have the key.
fn is_key(kind: TableKind, key: &str) -> bool
    ensures { result ≡ is_among (keys_of kind) key.now }
{
    match kind {
        TableKind::Top => {
            key == "default_lifetime"
                || key == "copies"
                || key == "bytes"
                || key == "query_wait"
                || key == "answer_wait"
                || key == "fetch_wait"
                || key == "ask_wait"
                || key == "fetches_per_address"
                || key == "clients_per_address"
                || key == "master"
                || key == "node"
                || key == "foreign"
                || key == "origin"
        }
        TableKind::Master => key == "address" || key == "htcp",
        TableKind::Node => key == "joins" || key == "peer" || is_cache_key(key),
        TableKind::Peer => key == "id" || key == "role" || key == "by",
        TableKind::Foreign => is_cache_key(key),
        TableKind::Origin => {
            key == "host" || key == "port" || key == "address" || key == "connect"
        }
    }
}

/// Whether the table of a cache may have the key.
fn is_cache_key(key: &str) -> bool
    ensures { result ≡ is_among (keys_of TableKind.Foreign) key.now }
{
    key == "id"
        || key == "name"
        || key == "address"
        || key == "http"
        || key == "icp"
        || key == "htcp"
}

/// Whether a table of this kind may have all the keys that this one has.
fn are_keys(kind: TableKind, table: &Table) -> bool
    ensures { result ≡ list_all (λ key.
        is_among (keys_of kind) (string_bytes key)) (keys table.now) }
{
    table.keys().all(|key| is_key(kind, key.as_str()))
}

/// The same of the table as contracts see it.
fn has_only(kind: TableKind, table: &Table) -> bool
    ensures { result ≡ has_only_keys (keys_of kind) (table_view table.now) }
{
    are_keys(kind, table)
}

/// The table. `BadField` if it has a key that its kind does not allow.
pub(crate) fn known_table(
    kind: TableKind,
    table: &Table,
    place: TextPlace,
) -> Result<&Table, TablesFault>
    ensures { MatchResult result
        (λ t. checked (has_only_keys (keys_of kind)) (table_view table.now)
        ≡ Some (table_view t.now))
        (λ fault. IsFieldFault fault (checked (has_only_keys (keys_of kind)) (table_view table.now)
        ≡ None)) }
{
    if has_only(kind, table) {
        Ok(table)
    } else {
        Err(place.fault_at(""))
    }
}

/// The table of a value. `BadField` if there is no value, it is no table, or it has a key that its
/// kind does not allow.
pub(crate) fn table_of(
    kind: TableKind,
    value: Option<&Value>,
    place: TextPlace,
) -> Result<&Table, TablesFault>
    ensures { MatchResult result
        (λ t. table_in kind (option_map (λ v. view v.now) value.entry) ≡ Some (table_view t.now))
        (λ fault. IsFieldFault fault (table_in kind (option_map (λ v. view v.now) value.entry)
        ≡ None)) }
{
    match value {
        Some(Value::Table(table)) => known_table(kind, table, place),
        _ => Err(place.fault_at("")),
    }
}

impl Entry for Peer {
    ghost reads = { peer_of };

    ghost is_sound = { is_peer };

    fn read(_alloc: Global, value: &Value, place: TextPlace) -> Result<Peer, TablesFault> {
        let table = table_of(TableKind::Peer, Some(value), place)?;
        let id = peer_id(table, place)?;
        let role = role(table, place)?;
        let by = udp(table, place)?;
        Ok(Peer { id, role, by })
    }
}

/// The id of a peer: 1 to 16 or 101 to 108.
fn peer_id(table: &Table, place: TextPlace) -> Result<u8, TablesFault>
    ensures { MatchResult result
        (λ id. (option_and_then (checked may_be_peer)
        (number_within 1 108 (codes "id") (table_view table.now)) ≡ Some id)
        × (may_be_peer id ≡ true))
        (λ fault. IsFieldFault fault
        (option_and_then (checked may_be_peer)
        (number_within 1 108 (codes "id") (table_view table.now)) ≡ None)) }
{
    let id = number(table, "id", 1, 108, place)?;
    if id <= 16 || 101 <= id {
        Ok(id as u8)
    } else {
        Err(place.fault_at("id"))
    }
}

/// A cache whose id is from `low` to `high`.
fn read_cache(
    alloc: Global,
    table: &Table,
    low: u64,
    high: u64,
    place: TextPlace,
) -> Result<Cache, TablesFault>
    requires { high < 256 }
    ensures { MatchResult result
        (λ c. (cache_of low high (table_view table.now) ≡ Some c) × (is_cache c ≡ true)
        × (is_between low high c.id ≡ true))
        (λ fault. IsFieldFault fault (cache_of low high (table_view table.now) ≡ None)) }
{
    let id = number(table, "id", low, high, place)?;
    let ip = ip(table, place)?;
    let http = port(table, "http", place)?;
    let icp = port(table, "icp", place)?;
    let htcp = port(table, "htcp", place)?;
    let name = name(alloc, table, place)?;
    Ok(Cache {
        id: id as u8,
        name,
        http: Address { ip, port: http },
        icp: Address { ip, port: icp },
        htcp: Address { ip, port: htcp },
    })
}

impl Entry for Cache {
    ghost reads = { foreign_of };

    ghost is_sound = { is_foreign };

    fn read(alloc: Global, value: &Value, place: TextPlace) -> Result<Cache, TablesFault> {
        let table = table_of(TableKind::Foreign, Some(value), place)?;
        read_cache(alloc, table, 101, 108, place)
    }
}

impl Entry for Origin {
    ghost reads = { origin_of };

    ghost is_sound = { is_origin };

    fn read(alloc: Global, value: &Value, place: TextPlace) -> Result<Origin, TablesFault> {
        let table = table_of(TableKind::Origin, Some(value), place)?;
        let named = port(table, "port", place)?;
        let ip = ip(table, place)?;
        let connect = port(table, "connect", place)?;
        let host = host(alloc, table, place)?;
        Ok(Origin {
            host,
            port: named,
            connect: Address { ip, port: connect },
        })
    }
}

impl Entry for Member {
    ghost reads = { member_of };

    ghost is_sound = { is_member };

    fn read(alloc: Global, value: &Value, place: TextPlace) -> Result<Member, TablesFault> {
        let table = table_of(TableKind::Node, Some(value), place)?;
        let cache = read_cache(alloc, table, 1, 16, place)?;
        let joins = flag(table, "joins", place)?;
        let peers = read_list(alloc, table, "peer", place.peers())?;
        Ok(Member {
            cache,
            joins,
            peers,
        })
    }
}

/// The entries at a key: none if the key is missing.
pub(crate) fn read_list<T: Entry>(
    alloc: Global,
    table: &Table,
    key: &'static str,
    place: TextPlace,
) -> Result<Listed<T>, TablesFault>
    ensures { MatchResult result
        (λ xs. (list_in T.reads (get_member key.now (table_view table.now)) ≡ Some xs)
        × (list_all T.is_sound xs ≡ true))
        (λ fault. IsFieldFault fault (list_in T.reads (get_member key.now (table_view table.now))
        ≡ None)) }
{
    match value_at(table, key) {
        None => Ok(Listed::new(Vec::new(alloc))),
        Some(Value::Array(values)) => read_all(alloc, values.as_slice(), place),
        Some(_) => Err(place.fault_at(key)),
    }
}

/// What each of the values says, in order.
fn read_all<T: Entry>(
    alloc: Global,
    values: &[Value],
    place: TextPlace,
) -> Result<Listed<T>, TablesFault>
    ensures { MatchResult result
        (λ xs. (all_of T.reads (items_view values.now) ≡ Some xs) × (list_all T.is_sound xs ≡ true))
        (λ fault. IsFieldFault fault (all_of T.reads (items_view values.now) ≡ None)) }
{
    let mut entries = Vec::new(alloc);
    for value in values {
        let entry = T::read(alloc, value, place.item(entries.len()))?;
        match entries.push(entry) {
            Ok(()) => {}
            Err(_) => return Err(TablesFault::NoMemory),
        }
    }
    Ok(Listed::new(entries))
}
