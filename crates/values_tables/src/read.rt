//! Reads the whole document.
ghost use Rattle.std.specs.Prelude.{◌≡◌, true, MatchResult, Some, None, IfOk, IfErr, option_map};
ghost use Rattle.std.specs.Prelude.{option_and_then, codes};
ghost use Rattle.std.specs.List.{list_all, list_any};
ghost use Rattle.toml.specs.Data.{get_member};
ghost use Rattle.toml.specs.View.{view, table_view};
ghost use Rattle.values_tables.specs.Fault.{IsFieldFault, IsReason, IsBadToml};
ghost use Rattle.values_tables.specs.Keys.{keys_of, has_only};
ghost use Rattle.values_tables.specs.Ranges.{are_limits, are_tables};
ghost use Rattle.values_tables.specs.Ranges.{has_founding as has_founding_member, is_founding};
ghost use Rattle.values_tables.specs.Ranges.{is_port, is_member};
ghost use Rattle.values_tables.specs.Reading.{tables_of as tables_in_document, tables_in};
ghost use Rattle.values_tables.specs.Reading.{master_of, limits_of, members_of};

use crate::entries::{known_table, read_list, table_of};
use crate::fields::{ip, number, number_or, port, value_at};
use crate::{Limits, Member, TableKind, Tables, TablesFault, TextPlace};
use std::alloc::Global;
use toml::Table;
use values_plain::{Address, Listed};

impl Tables {
    /// The tables that a text says. They are in their ranges.
    ///
    /// The error is `BadToml` exactly if the text is no TOML document, `BadField` exactly if a
    /// field of the document is bad; `NoMemory` may replace either.
    pub fn read(alloc: Global, text: &str) -> Result<Tables, TablesFault>
        ensures ok { IfOk result (λ tables. tables_in text.now ≡ Some (Some tables)) }
        ensures ranges { IfOk result (λ tables. are_tables tables ≡ true) }
        ensures err { IfErr result (IsReason text.now) }
    {
        match toml::table_from_str(alloc, text) {
            Ok(document) => tables_of(alloc, &document),
            Err(error) => match error.span() {
                None => Err(TablesFault::NoMemory),
                Some(span) => Err(bad_toml(text.as_bytes(), span.start)),
            },
        }
    }
}

/// The fault of a text that is no document, with the line of the octet at `start`.
fn bad_toml(text: &[u8], start: usize) -> TablesFault
    ensures { IsBadToml result }
{
    let before = &text[..start.min(text.len())];
    let ends = before.iter().filter(|octet| **octet == b'\n').count();
    TablesFault::BadToml(TextPlace {
        line: Some(ends.saturating_add(1)),
        ..TextPlace::of(TableKind::Top)
    })
}

/// What a document says.
fn tables_of(alloc: Global, document: &Table) -> Result<Tables, TablesFault>
    ensures { MatchResult result
        (λ tables. (tables_in_document (table_view document.now) ≡ Some tables)
        × (are_tables tables ≡ true))
        (λ fault. IsFieldFault fault (tables_in_document (table_view document.now) ≡ None)) }
{
    let place = TextPlace::of(TableKind::Top);
    let table = known_table(TableKind::Top, document, place)?;
    let limits = limits(table, place)?;
    let master = master(table)?;
    let members = members(alloc, table)?;
    let foreign = read_list(alloc, table, "foreign", TextPlace::of(TableKind::Foreign))?;
    let origins = read_list(alloc, table, "origin", TextPlace::of(TableKind::Origin))?;
    Ok(Tables {
        limits,
        master,
        members,
        foreign,
        origins,
    })
}

/// The limits of each node.
fn limits(table: &Table, place: TextPlace) -> Result<Limits, TablesFault>
    ensures { MatchResult result
        (λ limits. (limits_of (table_view table.now) ≡ Some limits) × (are_limits limits ≡ true))
        (λ fault. IsFieldFault fault (limits_of (table_view table.now) ≡ None)) }
{
    let default_lifetime = number(table, "default_lifetime", 0, 2147483648, place)?;
    let copies = number(table, "copies", 1, 65536, place)?;
    let bytes = number(table, "bytes", 1, 1073741824, place)?;
    let query_wait = number(table, "query_wait", 1, 60000, place)?;
    let answer_wait = number_or(table, "answer_wait", (1, 60000), 5000, place)?;
    let fetch_wait = number_or(table, "fetch_wait", (1, 60000), 5000, place)?;
    let ask_wait = number_or(table, "ask_wait", (1, 600000), 15000, place)?;
    let fetches_per_address = number_or(table, "fetches_per_address", (1, 1024), 64, place)?;
    let clients_per_address = number_or(table, "clients_per_address", (1, 1024), 128, place)?;
    Ok(Limits {
        default_lifetime,
        copies,
        bytes,
        query_wait,
        answer_wait,
        fetch_wait,
        ask_wait,
        fetches_per_address,
        clients_per_address,
    })
}

/// The address of the master.
fn master(table: &Table) -> Result<Address, TablesFault>
    ensures { MatchResult result
        (λ a. (master_of (get_member (codes "master") (table_view table.now)) ≡ Some a)
        × (is_port a.port ≡ true))
        (λ fault. IsFieldFault fault
        (master_of (get_member (codes "master") (table_view table.now)) ≡ None)) }
{
    let place = TextPlace::of(TableKind::Master);
    let master = table_of(TableKind::Master, value_at(table, "master"), place)?;
    let ip = ip(master, place)?;
    let port = port(master, "htcp", place)?;
    Ok(Address { ip, port })
}

/// The members, at least one of them founding.
fn members(alloc: Global, table: &Table) -> Result<Listed<Member>, TablesFault>
    ensures { MatchResult result
        (λ ms. (members_of (table_view table.now) ≡ Some ms) × (has_founding_member ms ≡ true)
        × (list_all is_member ms ≡ true))
        (λ fault. IsFieldFault fault (members_of (table_view table.now) ≡ None)) }
{
    let place = TextPlace::of(TableKind::Node);
    let members: Listed<Member> = read_list(alloc, table, "node", place)?;
    if has_founding(members.as_slice()) {
        Ok(members)
    } else if members.as_slice().is_empty() {
        Err(place.fault_at(""))
    } else {
        Err(place.fault_at("joins"))
    }
}

/// Whether any of the members is founding.
fn any_founding(members: &[Member]) -> bool
    ensures { result ≡ list_any is_founding members.now }
{
    members.iter().any(|member| !member.joins)
}

/// The same, counted as contracts see it.
fn has_founding(members: &[Member]) -> bool
    ensures { result ≡ has_founding_member members.now }
{
    any_founding(members)
}
