ghost use Rattle.std.specs.Prelude.{◌≡◌, ◌≤◌, ◌==◌, ◌∷◌, Ok, Err, None, IfOk, IfErr, MatchResult};
ghost use Rattle.std.specs.Prelude.{[], nat_eq, unwrap_or, option_copied};
ghost use Rattle.std.specs.Cmp.{partial_equiv_from_equiv, partial_order_from_own_ties};
ghost use Rattle.std.specs.Cmp.Lexicographic.{pointwise, nat_list_eq_equiv, slice_cmp};
ghost use Rattle.std.specs.Cmp.Rules.{comparing, hashing};
ghost use Rattle.std.specs.Ordering.{nat_cmp, as_partial_cmp};
ghost use Rattle.std.proofs.Common.{rules};
ghost use Rattle.http_uri.specs.Uri.{uri_scheme, uri_authority};
ghost use Rattle.url_key.specs.Fault.{UnlessNoMemory};
ghost use Rattle.url_key.specs.Key.{HasKey, HasUriKey, IsKey, KeepsParts, is_http as has_http};
ghost use Rattle.url_key.specs.Key.{early_fault as first_fault, key_of_uri as uri_outcome};
ghost use Rattle.url_key.specs.Key.{key_of_authority as authority_outcome};
ghost use Rattle.url_key.specs.Text.{key_authority, key_host, key_path, key_port};

use crate::KeyFault;
use crate::plain::is_plain_key;
use crate::text::{
    HTTP_PORT, after_host, all_visible, authority_of, canonical_text, has, host_of, path_of,
    port_of,
};
use http_uri::{Uri, UriError};
use std::alloc::{AllocError, Global};
use std::cmp::Ordering;
use std::fmt;
use std::hash::{Hash, Hasher};
use std::marker::Model;

/// The greatest length of a key in octets, and of a text that [`Key::read`] takes.
pub const LONGEST_KEY: usize = 1024;

/// The canonical text of an http URL, of at most [`LONGEST_KEY`] octets. Keys compare, order and
/// hash as their texts.
///
/// A contract sees it as that text. Its invariant: the text reads as this key (`IsKey`).
#[derive(Drop)]
pub struct Key {
    text: Vec<u8>,
}

impl Model for Key {
    ghost use Rattle.std.specs.Prelude.{ℕ, List};
    ghost use Rattle.url_key.specs.Key.{IsKey};

    ghost Value = { List ℕ };

    ghost view = { λ k. k.text.items };

    ghost invariant = { λ k. IsKey k.text.items };
}

impl Key {
    /// Reads the key of a URL. The error is the first fault of the text, in the order of
    /// [`KeyFault`].
    ///
    /// `NoMemory` may replace any fault but those that are tested before the text is cut: a text
    /// that is too long, an octet that is not visible, and a fragment.
    ///
    /// The key keeps the text's host in lower case, its port, its path and its query (`parts`).
    pub fn read(alloc: Global, text: &[u8]) -> Result<Key, KeyFault>
        ensures ok { IfOk result (λ key. HasKey text.now (Ok key)) }
        ensures parts { IfOk result (λ key. KeepsParts text.now key) }
        ensures err { IfErr result (λ fault. UnlessNoMemory fault (HasKey text.now (Err fault))) }
        // `NoMemory` comes only if the text passes the tests before it is cut.
        ensures memory { result ≡ Err KeyFault.NoMemory → first_fault text.now ≡ None }
    {
        match text_of_key(alloc, text) {
            Ok(text) => Ok(Key { text }),
            Err(fault) => Err(fault),
        }
    }

    /// The key of a text that is one already: `http://`, a host in lower case without a port, and a
    /// path with or without a query. The text stays where it is in memory. Any other text comes
    /// back, also one that has a key.
    pub fn from_plain(text: Vec<u8>) -> Result<Key, Vec<u8>>
        ensures ok { IfOk result (λ key. (key ≡ text.items) × HasKey text.items (Ok key)) }
        ensures err { IfErr result (λ back. back ≡ text) }
    {
        if is_plain_key(text.as_slice()) {
            Ok(Key { text })
        } else {
            Err(text)
        }
    }

    /// The text of the key, which stays where it is in memory.
    pub fn into_text(self) -> Vec<u8>
        ensures { result.items ≡ self }
    {
        self.text
    }

    /// The text of the key. It reads as this key.
    pub fn text(&self) -> &[u8]
        ensures value { result.now ≡ self.now }
        ensures valid { IsKey self.now }
    {
        self.text.as_slice()
    }

    /// The host, in lower case. An address in brackets keeps its brackets.
    pub fn host(&self) -> &[u8]
        ensures { result.now ≡ key_host self.now }
    {
        host_of(self.authority())
    }

    /// The port, from 1 to 65535: 80 if the text has none.
    pub fn port(&self) -> u16
        ensures { result ≡ key_port self.now }
    {
        let rest = after_host(self.authority());
        port_of(rest).unwrap_or(HTTP_PORT)
    }

    /// The host, with `:` and the port unless it is 80: the value of a `Host` field (RFC 9110,
    /// section 7.2).
    pub fn authority(&self) -> &[u8]
        ensures { result.now ≡ key_authority self.now }
    {
        authority_of(&self.text)
    }

    /// The path, with `?` and the query if there is one: the origin-form of a request target (RFC
    /// 9112, section 3.2.1).
    pub fn path_and_query(&self) -> &[u8]
        ensures { result.now ≡ key_path self.now }
    {
        path_of(&self.text)
    }

    /// A second copy of the key. The error is want of memory.
    pub fn copy(&self, alloc: Global) -> Result<Key, AllocError>
        ensures { IfOk result (λ copy. copy ≡ self.now) }
    {
        let text = Vec::from_slice(alloc, &self.text)?;
        Ok(Key { text })
    }
}

/// The text of the key of any text, or the first fault. A text that is a plain key is copied.
fn text_of_key(alloc: Global, text: &[u8]) -> Result<Vec<u8>, KeyFault>
    ensures outcome { MatchResult result (λ key. HasKey text.now (Ok key.items))
        (λ fault. UnlessNoMemory fault (HasKey text.now (Err fault))) }
    ensures memory { result ≡ Err KeyFault.NoMemory → first_fault text.now ≡ None }
{
    if is_plain_key(text) {
        let key = Vec::from_slice(alloc, text)?;
        return Ok(key);
    }
    match early_fault(text) {
        Some(fault) => Err(fault),
        None => key_of_text(alloc, text),
    }
}

/// The fault that is found before the text is cut: its length, an octet that is not visible, or a
/// fragment. Allocates nothing.
fn early_fault(text: &[u8]) -> Option<KeyFault>
    ensures { result ≡ first_fault text.now }
{
    if text.len() > LONGEST_KEY {
        Some(KeyFault::TooLong)
    } else if !all_visible(text) {
        Some(KeyFault::NotVisibleAscii)
    } else if has(b'#', text) {
        Some(KeyFault::Fragment)
    } else {
        None
    }
}

/// The key's text, for a text without an early fault.
fn key_of_text(alloc: Global, text: &[u8]) -> Result<Vec<u8>, KeyFault>
    ensures { MatchResult result (λ key. HasUriKey text.now (Ok key.items))
        (λ fault. UnlessNoMemory fault (HasUriKey text.now (Err fault))) }
{
    match Uri::from_bytes(alloc, text) {
        Ok(uri) => key_of_uri(alloc, text.len(), &uri),
        Err(UriError::Invalid(_)) => Err(KeyFault::NotUri),
        Err(UriError::OutOfMemory) => Err(KeyFault::NoMemory),
    }
}

/// The key's text, for a URI that was read from a text of `length` octets. The key is longer by one
/// `/` at most.
fn key_of_uri(alloc: Global, length: usize, uri: &Uri) -> Result<Vec<u8>, KeyFault>
    ensures { MatchResult result (λ key. Ok key.items ≡ uri_outcome uri.now)
        (λ fault. UnlessNoMemory fault (Err fault ≡ uri_outcome uri.now)) }
{
    if is_http(uri) {
        let room = length.saturating_add(1);
        key_of_authority(
            alloc,
            room,
            authority_or_empty(uri),
            uri.path(),
            uri.query(),
        )
    } else {
        Err(KeyFault::NotHttp)
    }
}

/// Whether the scheme is http. `http_uri` gives a scheme in lower case.
fn is_http(uri: &Uri) -> bool
    ensures { result ≡ has_http (uri_scheme uri.now) }
{
    match uri.scheme_str() {
        Some(scheme) => scheme == "http",
        None => false,
    }
}

/// The authority, or no octets if there is none.
fn authority_or_empty(uri: &Uri) -> &[u8]
    ensures { result.now ≡ unwrap_or (uri_authority uri.now) [] }
{
    match uri.authority() {
        Some(authority) => authority.as_str().as_bytes(),
        None => b"".as_slice(),
    }
}

/// The key's text, for an authority, a path and a query. `room` is the capacity, in octets, of the
/// buffer that is allocated.
fn key_of_authority(
    alloc: Global,
    room: usize,
    authority: &[u8],
    path: &str,
    query: Option<&str>,
) -> Result<Vec<u8>, KeyFault>
    ensures { let outcome = authority_outcome authority.now path.now (option_copied query.entry) in
        MatchResult result (λ key. Ok key.items ≡ outcome)
        (λ fault. UnlessNoMemory fault (Err fault ≡ outcome)) }
{
    if has(b'@', authority) {
        return Err(KeyFault::UserInfo);
    }
    let host = host_of(authority);
    if host.is_empty() {
        return Err(KeyFault::NoHost);
    }
    let Some(port) = port_of(after_host(authority)) else {
        return Err(KeyFault::BadPort);
    };
    let key = canonical_text(alloc, room, host, port, path, query)?;
    if key.len() > LONGEST_KEY {
        return Err(KeyFault::TooLong);
    }
    Ok(key)
}

impl PartialEq for Key {
    ghost eq = { pointwise nat_eq };

    ghost laws = { partial_equiv_from_equiv nat_list_eq_equiv };

    fn eq(&self, other: &Key) -> bool {
        self.text() == other.text()
    }
}

impl Eq for Key {
    ghost laws = { nat_list_eq_equiv };
}

impl PartialOrd for Key {
    ghost partial_cmp = { as_partial_cmp (slice_cmp nat_cmp) };

    ghost laws = { partial_order_from_own_ties (Prim.search (comparing, rules))
        (Prim.search (comparing, rules)) };

    fn partial_cmp(&self, other: &Key) -> Option<Ordering> {
        Some(self.cmp(other))
    }
}

impl Ord for Key {
    ghost cmp = { slice_cmp nat_cmp };

    ghost total = { Prim.search (comparing, rules) };

    ghost matches_partial_cmp = { Prim.search (comparing, rules) };

    ghost matches_eq = { Prim.search (comparing, rules) };

    fn cmp(&self, other: &Key) -> Ordering {
        self.text().cmp(other.text())
    }
}

impl Hash for Key {
    ghost hash_input = { λ k. k ∷ [] };

    ghost respects_eq = { Prim.search (hashing, rules) };

    fn hash<H: Hasher>(&self, state: &mut H) {
        state.write(self.text());
    }
}

impl fmt::Debug for Key {
    fn fmt<W: fmt::Write>(&self, f: &mut fmt::Formatter<W>) -> fmt::Result {
        fmt::Debug::fmt(&self.text(), f)
    }
}
