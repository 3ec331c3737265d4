//! Reads one field of a table: a number, a flag, a text or an address at a key.
ghost use Rattle.std.specs.Prelude.{◌≡◌, true, false, MatchResult, Some, None, codes, option_map};
ghost use Rattle.std.specs.Prelude.{option_and_then};
ghost use Rattle.std.specs.List.{list_all};
ghost use Rattle.toml.specs.Data.{get_member};
ghost use Rattle.toml.specs.View.{view, table_view};
ghost use Rattle.values_tables.specs.Fault.{IsFieldFault};
ghost use Rattle.values_tables.specs.Keys.{keys_of, has_only as has_only_keys, is_among};
ghost use Rattle.values_tables.specs.Ranges.{is_between, is_port};
ghost use Rattle.values_tables.specs.Ranges.{is_name_letter as is_letter_of_name};
ghost use Rattle.values_tables.specs.Ranges.{is_host_letter as is_letter_of_host};
ghost use Rattle.values_tables.specs.Ranges.{is_name as is_name_text, is_host as is_host_text};
ghost use Rattle.values_tables.specs.Reading.{natural_in, natural_of, text_in, flag_in, ip_value};
ghost use Rattle.values_tables.specs.Reading.{port as port_at, role_of, udp_of};
ghost use Rattle.values_tables.specs.Reading.{number as number_within};
ghost use Rattle.values_tables.specs.Reading.{number_or as number_within_or, ip_of as ip_of_text};
ghost use Rattle.values_tables.specs.Reading.{ip as ip_in, text as text_where, table_in};

use crate::{Role, TablesFault, TextPlace};
use std::alloc::Global;
use std::net::Ipv4Addr;
use toml::{Table, Value};
use values_plain::{Listed, Udp};

/// The value at a key.
pub(crate) fn value_at<'a>(table: &'a Table, key: &str) -> Option<&'a Value>
    ensures { option_map (λ v. view v.now) result ≡ get_member key.now (table_view table.now) }
{
    table.get(key)
}

/// The whole number at a key, unless it is negative.
fn natural_at(table: &Table, key: &str) -> Option<u64>
    ensures { result ≡ natural_in (get_member key.now (table_view table.now)) }
{
    match value_at(table, key) {
        Some(Value::Integer(number)) => natural(*number),
        _ => None,
    }
}

/// The number, unless it is negative.
fn natural(number: i64) -> Option<u64>
    ensures { result ≡ natural_of number }
{
    if number < 0 {
        None
    } else {
        Some(number.unsigned_abs())
    }
}

/// The text at a key.
fn text_at<'a>(table: &'a Table, key: &str) -> Option<&'a [u8]>
    ensures { option_map (λ s. s.now) result ≡ text_in (get_member key.now (table_view table.now)) }
{
    match value_at(table, key) {
        Some(Value::String(text)) => Some(text.as_str().as_bytes()),
        _ => None,
    }
}

/// The number at a key, from `low` to `high`.
pub(crate) fn number(
    table: &Table,
    key: &'static str,
    low: u64,
    high: u64,
    place: TextPlace,
) -> Result<u64, TablesFault>
    ensures { MatchResult result
        (λ n. (number_within low high key.now (table_view table.now) ≡ Some n)
        × (is_between low high n ≡ true))
        (λ fault. IsFieldFault fault (number_within low high key.now (table_view table.now)
        ≡ None)) }
{
    match natural_at(table, key) {
        Some(number) if low <= number && number <= high => Ok(number),
        _ => Err(place.fault_at(key)),
    }
}

/// The number at a key, from `range.0` to `range.1`; `usual` where the table has no such key.
pub(crate) fn number_or(
    table: &Table,
    key: &'static str,
    range: (u64, u64),
    usual: u64,
    place: TextPlace,
) -> Result<u64, TablesFault>
    requires { is_between range.0 range.1 usual ≡ true }
    ensures { MatchResult result
        (λ n. (number_within_or range.0 range.1 usual key.now (table_view table.now) ≡ Some n)
        × (is_between range.0 range.1 n ≡ true))
        (λ fault. IsFieldFault fault (number_within_or range.0 range.1 usual key.now
        (table_view table.now) ≡ None)) }
{
    match value_at(table, key) {
        None => Ok(usual),
        Some(_) => number(table, key, range.0, range.1, place),
    }
}

/// Whether the value at a key is true; `false` where the table has no such key.
pub(crate) fn flag(table: &Table, key: &'static str, place: TextPlace) -> Result<bool, TablesFault>
    ensures { MatchResult result
        (λ b. flag_in (get_member key.now (table_view table.now)) ≡ Some b)
        (λ fault. IsFieldFault fault (flag_in (get_member key.now (table_view table.now))
        ≡ None)) }
{
    match value_at(table, key) {
        None => Ok(false),
        Some(Value::Boolean(is_true)) => Ok(*is_true),
        Some(_) => Err(place.fault_at(key)),
    }
}

/// The port at a key, from 1 to 65535.
pub(crate) fn port(table: &Table, key: &'static str, place: TextPlace) -> Result<u16, TablesFault>
    ensures { MatchResult result
        (λ n. (port_at key.now (table_view table.now) ≡ Some n) × (is_port n ≡ true))
        (λ fault. IsFieldFault fault (port_at key.now (table_view table.now) ≡ None)) }
{
    Ok(number(table, key, 1, 65535, place)? as u16)
}

/// Four octets as one number, the first octet highest.
fn value_of(octets: [u8; 4]) -> u32
    ensures { result ≡ ip_value octets }
{
    let [a, b, c, d] = octets;
    ((u32::from(a) * 256 + u32::from(b)) * 256 + u32::from(c)) * 256 + u32::from(d)
}

/// The IPv4 address that a text spells: four decimal numbers of 0 to 255 with dots, without leading
/// zeros (RFC 3986, section 3.2.2).
fn ip_of(text: &[u8]) -> Option<u32>
    ensures { result ≡ ip_of_text text.now }
{
    match Ipv4Addr::parse_ascii(text) {
        Ok(ip) => Some(value_of(ip.octets())),
        Err(_) => None,
    }
}

/// The IPv4 address of the key `address`.
pub(crate) fn ip(table: &Table, place: TextPlace) -> Result<u32, TablesFault>
    ensures { MatchResult result
        (λ n. ip_in (table_view table.now) ≡ Some n)
        (λ fault. IsFieldFault fault (ip_in (table_view table.now) ≡ None)) }
{
    let ip = match text_at(table, "address") {
        Some(text) => ip_of(text),
        None => None,
    };
    ip.ok_or(place.fault_at("address"))
}

/// Whether a length is from `low` to `high`.
fn is_within(length: usize, low: usize, high: usize) -> bool
    ensures { result ≡ is_between low high length }
{
    low <= length && length <= high
}

/// Whether each octet may be in a name.
fn are_name_letters(text: &[u8]) -> bool
    ensures { result ≡ list_all is_letter_of_name text.now }
{
    text.iter().all(|octet| is_name_letter(*octet))
}

/// Whether each octet may be in a host.
fn are_host_letters(text: &[u8]) -> bool
    ensures { result ≡ list_all is_letter_of_host text.now }
{
    text.iter().all(|octet| is_host_letter(*octet))
}

/// Whether the octet is a lower-case letter or a digit.
fn is_name_letter(octet: u8) -> bool
    ensures { result ≡ is_letter_of_name octet }
{
    octet.is_ascii_lowercase() || octet.is_ascii_digit()
}

/// Whether the text is a name: 1 to 32 lower-case letters and digits.
fn is_name(text: &[u8]) -> bool
    ensures { result ≡ is_name_text text.now }
{
    is_within(text.len(), 1, 32) && are_name_letters(text)
}

/// Whether the text is a host: 1 to 255 lower-case letters, digits, `.` and `-`.
fn is_host(text: &[u8]) -> bool
    ensures { result ≡ is_host_text text.now }
{
    is_within(text.len(), 1, 255) && are_host_letters(text)
}

/// Whether the octet may be in a host.
fn is_host_letter(octet: u8) -> bool
    ensures { result ≡ is_letter_of_host octet }
{
    is_name_letter(octet) || octet == b'.' || octet == b'-'
}

/// The name at the key `name`.
pub(crate) fn name(
    alloc: Global,
    table: &Table,
    place: TextPlace,
) -> Result<Listed<u8>, TablesFault>
    ensures { MatchResult result
        (λ name. (text_where is_name_text (codes "name") (table_view table.now) ≡ Some name)
        × (is_name_text name ≡ true))
        (λ fault. IsFieldFault fault
        (text_where is_name_text (codes "name") (table_view table.now) ≡ None)) }
{
    match text_at(table, "name") {
        Some(text) if is_name(text) => Ok(Listed::new(Vec::from_slice(alloc, text)?)),
        _ => Err(place.fault_at("name")),
    }
}

/// The host at the key `host`.
pub(crate) fn host(
    alloc: Global,
    table: &Table,
    place: TextPlace,
) -> Result<Listed<u8>, TablesFault>
    ensures { MatchResult result
        (λ host. (text_where is_host_text (codes "host") (table_view table.now) ≡ Some host)
        × (is_host_text host ≡ true))
        (λ fault. IsFieldFault fault
        (text_where is_host_text (codes "host") (table_view table.now) ≡ None)) }
{
    match text_at(table, "host") {
        Some(text) if is_host(text) => Ok(Listed::new(Vec::from_slice(alloc, text)?)),
        _ => Err(place.fault_at("host")),
    }
}

/// The role at the key `role`.
pub(crate) fn role(table: &Table, place: TextPlace) -> Result<Role, TablesFault>
    ensures { MatchResult result
        (λ role. option_and_then role_of
        (text_in (get_member (codes "role") (table_view table.now))) ≡ Some role)
        (λ fault. IsFieldFault fault (option_and_then role_of
        (text_in (get_member (codes "role") (table_view table.now))) ≡ None)) }
{
    match text_at(table, "role") {
        Some(word) if word == b"sibling".as_slice() => Ok(Role::Sibling),
        Some(word) if word == b"parent".as_slice() => Ok(Role::Parent),
        _ => Err(place.fault_at("role")),
    }
}

/// The protocol at the key `by`.
pub(crate) fn udp(table: &Table, place: TextPlace) -> Result<Udp, TablesFault>
    ensures { MatchResult result
        (λ by. option_and_then udp_of
        (text_in (get_member (codes "by") (table_view table.now))) ≡ Some by)
        (λ fault. IsFieldFault fault (option_and_then udp_of
        (text_in (get_member (codes "by") (table_view table.now))) ≡ None)) }
{
    match text_at(table, "by") {
        Some(word) if word == b"icp".as_slice() => Ok(Udp::Icp),
        Some(word) if word == b"htcp".as_slice() => Ok(Udp::Htcp),
        _ => Err(place.fault_at("by")),
    }
}
