//! What a line asks for.
ghost use Rattle.std.specs.Prelude.{◌≡◌, map};
ghost use Rattle.cluster_console.specs.Command.{command_text, command_of, alone, with_one};
ghost use Rattle.cluster_console.specs.Command.{purge_of, admit_of, status_of, with_two, get_of};

use values_lines::{decimal_u8, decimal_u32};

/// A line of the script.
pub(crate) enum Line<'a> {
    /// `purge URL`: issue a purge.
    Purge { url: &'a [u8] },
    /// `admit N`: admit a joining member.
    Admit { node: u8 },
    /// `status P`: ask the master how far a purge or an admission is.
    Status { number: u32 },
    /// `get N URL`: ask a member, as a client.
    Get { node: u8, url: &'a [u8] },
    /// `check`: judge what was done so far.
    Check,
    /// `pending`: ask the master which purges and admissions are pending.
    Pending,
    /// `members`: ask how each member stands.
    Members,
    /// `peers`: ask which peers the members think dead.
    Peers,
    /// `refused`: ask how many requests each member has refused.
    Refused,
    /// Anything else.
    Bad,
}

/// What a line of these words asks for.
pub(crate) fn line_of<'a>(words: &[&'a [u8]]) -> Line<'a>
    ensures { command_text result ≡ command_of (map (λ word. word.now) words.now) }
{
    match words {
        [keyword, word] => line_with_one(keyword, word),
        [keyword, first, second] => line_with_two(keyword, first, second),
        [keyword] => line_alone(keyword),
        [] => Line::Bad,
        [_, _, _, _, ..] => Line::Bad,
    }
}

/// A line of one word.
fn line_alone<'a>(keyword: &[u8]) -> Line<'a>
    ensures { command_text result ≡ alone keyword.now }
{
    if keyword == b"check".as_slice() {
        Line::Check
    } else if keyword == b"pending".as_slice() {
        Line::Pending
    } else if keyword == b"members".as_slice() {
        Line::Members
    } else if keyword == b"peers".as_slice() {
        Line::Peers
    } else if keyword == b"refused".as_slice() {
        Line::Refused
    } else {
        Line::Bad
    }
}

/// A line of a keyword and one word more.
fn line_with_one<'a>(keyword: &[u8], word: &'a [u8]) -> Line<'a>
    ensures { command_text result ≡ with_one keyword.now word.now }
{
    if keyword == b"purge".as_slice() {
        purge_line(word)
    } else if keyword == b"admit".as_slice() {
        admit_line(word)
    } else if keyword == b"status".as_slice() {
        status_line(word)
    } else {
        Line::Bad
    }
}

/// `purge URL`.
fn purge_line(url: &[u8]) -> Line<'_>
    ensures { command_text result ≡ purge_of url.now }
{
    if url.is_empty() {
        Line::Bad
    } else {
        Line::Purge { url }
    }
}

/// `admit N`.
fn admit_line<'a>(node: &[u8]) -> Line<'a>
    ensures { command_text result ≡ admit_of node.now }
{
    match decimal_u8(node) {
        Some(node) => Line::Admit { node },
        None => Line::Bad,
    }
}

/// `status P`.
fn status_line<'a>(number: &[u8]) -> Line<'a>
    ensures { command_text result ≡ status_of number.now }
{
    match decimal_u32(number) {
        Some(number) => Line::Status { number },
        None => Line::Bad,
    }
}

/// A line of a keyword and two words more: `get N URL`.
fn line_with_two<'a>(keyword: &[u8], node: &[u8], url: &'a [u8]) -> Line<'a>
    ensures { command_text result ≡ with_two keyword.now node.now url.now }
{
    if keyword == b"get".as_slice() {
        get_line(node, url)
    } else {
        Line::Bad
    }
}

/// `get N URL`.
fn get_line<'a>(node: &[u8], url: &'a [u8]) -> Line<'a>
    ensures { command_text result ≡ get_of node.now url.now }
{
    match decimal_u8(node) {
        Some(node) if !url.is_empty() => Line::Get { node, url },
        _ => Line::Bad,
    }
}
