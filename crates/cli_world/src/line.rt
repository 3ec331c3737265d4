//! What a line asks for.
ghost use Rattle.std.specs.Prelude.{◌≡◌, map};
ghost use Rattle.cli_world.specs.Command.{command_text, command_of, bare, with_one, issue_of};
ghost use Rattle.cli_world.specs.Command.{node_of, admit_of, status_of, counted, with_two};
ghost use Rattle.cli_world.specs.Command.{client_of, answer_of, fetch_of, with_three, with_four};

use values_lines::{decimal_u8, decimal_u16, decimal_u32, decimal_u64};

/// A line of the script.
pub(crate) enum Line<'a> {
    /// `clock T`: the clock is set to this moment, in seconds.
    Clock {
        now: u64,
    },
    /// `client N URL [only-if-cached]`: a client asks a member.
    Client {
        node: u8,
        url: &'a [u8],
        only_if_cached: bool,
    },
    /// `datagram K`: a datagram that was sent arrives.
    Datagram {
        number: u64,
    },
    /// `ask K`: a request that a member sent to a member arrives.
    Ask {
        number: u64,
    },
    /// `answer K [SERIAL]`: a response that a member sent to a member arrives.
    Answer {
        number: u64,
        serial: Option<u32>,
    },
    /// `origin N SERIAL STATUS BODY`: the origin answers a read.
    Origin {
        node: u8,
        serial: u32,
        status: u16,
        body: &'a [u8],
    },
    /// `fail N SERIAL`: a fetch fails.
    Fail {
        node: u8,
        serial: u32,
    },
    /// `expire N SERIAL`: the time of a round is over.
    Expire {
        node: u8,
        serial: u32,
    },
    /// `fault N`: a member's store fails, and the member closes.
    Fault {
        node: u8,
    },
    /// `restart N`: a member starts again.
    Restart {
        node: u8,
    },
    /// `issue URL`: a purge is issued.
    Issue {
        url: &'a [u8],
    },
    /// `admit N`: the master admits a member.
    Admit {
        node: u8,
    },
    /// `resend`: the master sends again what is due.
    Resend,
    /// `status P`: the master is asked how far a number is.
    Status {
        number: u32,
    },
    /// `master`: the master starts again.
    Master,
    /// Anything else.
    Bad,
}

/// What a line of these words asks for.
pub(crate) fn line_of<'a>(words: &[&'a [u8]]) -> Line<'a>
    ensures { command_text result ≡ command_of (map (λ word. word.now) words.now) }
{
    match words {
        [keyword] => bare_line(keyword),
        [keyword, word] => line_with_one(keyword, word),
        [keyword, first, second] => line_with_two(keyword, first, second),
        [keyword, first, second, third] => line_with_three(keyword, first, second, third),
        [keyword, node, serial, status, body] => {
            line_with_four(keyword, node, serial, status, body)
        }
        [] => Line::Bad,
        [_, _, _, _, _, _, ..] => Line::Bad,
    }
}

/// A line of one word.
fn bare_line<'a>(keyword: &[u8]) -> Line<'a>
    ensures { command_text result ≡ bare keyword.now }
{
    if keyword == b"resend".as_slice() {
        Line::Resend
    } else if keyword == b"master".as_slice() {
        Line::Master
    } else {
        Line::Bad
    }
}

/// A line of a keyword and one word more.
fn line_with_one<'a>(keyword: &[u8], word: &'a [u8]) -> Line<'a>
    ensures { command_text result ≡ with_one keyword.now word.now }
{
    if keyword == b"issue".as_slice() {
        issue_line(word)
    } else if keyword == b"fault".as_slice() || keyword == b"restart".as_slice() {
        node_line(keyword == b"fault".as_slice(), word)
    } else if keyword == b"admit".as_slice() {
        admit_line(word)
    } else if keyword == b"status".as_slice() {
        status_line(word)
    } else {
        counted_line(keyword, word)
    }
}

/// `issue URL`.
fn issue_line(url: &[u8]) -> Line<'_>
    ensures { command_text result ≡ issue_of url.now }
{
    if url.is_empty() {
        Line::Bad
    } else {
        Line::Issue { url }
    }
}

/// `fault N` or `restart N`.
fn node_line<'a>(fails: bool, node: &[u8]) -> Line<'a>
    ensures { command_text result ≡ node_of fails node.now }
{
    match decimal_u8(node) {
        Some(node) if fails => Line::Fault { node },
        Some(node) => Line::Restart { node },
        None => Line::Bad,
    }
}

/// `admit N`.
fn admit_line<'a>(node: &[u8]) -> Line<'a>
    ensures { command_text result ≡ admit_of node.now }
{
    match decimal_u8(node) {
        Some(node) => Line::Admit { node },
        None => Line::Bad,
    }
}

/// `status P`.
fn status_line<'a>(number: &[u8]) -> Line<'a>
    ensures { command_text result ≡ status_of number.now }
{
    match decimal_u32(number) {
        Some(number) => Line::Status { number },
        None => Line::Bad,
    }
}

/// `clock T`, `datagram K`, `ask K` or `answer K`.
fn counted_line<'a>(keyword: &[u8], number: &[u8]) -> Line<'a>
    ensures { command_text result ≡ counted keyword.now number.now }
{
    let Some(number) = decimal_u64(number) else {
        return Line::Bad;
    };
    if keyword == b"clock".as_slice() {
        Line::Clock { now: number }
    } else if keyword == b"datagram".as_slice() {
        Line::Datagram { number }
    } else if keyword == b"ask".as_slice() {
        Line::Ask { number }
    } else if keyword == b"answer".as_slice() {
        Line::Answer {
            number,
            serial: None,
        }
    } else {
        Line::Bad
    }
}

/// A line of a keyword and two words more.
fn line_with_two<'a>(keyword: &[u8], first: &[u8], second: &'a [u8]) -> Line<'a>
    ensures { command_text result ≡ with_two keyword.now first.now second.now }
{
    if keyword == b"client".as_slice() {
        client_line(first, second, false)
    } else if keyword == b"answer".as_slice() {
        answer_line(first, second)
    } else if keyword == b"fail".as_slice() || keyword == b"expire".as_slice() {
        fetch_line(keyword == b"fail".as_slice(), first, second)
    } else {
        Line::Bad
    }
}

/// `client N URL`, with or without `only-if-cached`.
fn client_line<'a>(node: &[u8], url: &'a [u8], only_if_cached: bool) -> Line<'a>
    ensures { command_text result ≡ client_of node.now url.now only_if_cached }
{
    match decimal_u8(node) {
        Some(node) if !url.is_empty() => Line::Client {
            node,
            url,
            only_if_cached,
        },
        _ => Line::Bad,
    }
}

/// `answer K SERIAL`.
fn answer_line<'a>(number: &[u8], serial: &[u8]) -> Line<'a>
    ensures { command_text result ≡ answer_of number.now serial.now }
{
    match (decimal_u64(number), decimal_u32(serial)) {
        (Some(number), Some(serial)) => Line::Answer {
            number,
            serial: Some(serial),
        },
        _ => Line::Bad,
    }
}

/// `fail N SERIAL` or `expire N SERIAL`.
fn fetch_line<'a>(fails: bool, node: &[u8], serial: &[u8]) -> Line<'a>
    ensures { command_text result ≡ fetch_of fails node.now serial.now }
{
    match (decimal_u8(node), decimal_u32(serial)) {
        (Some(node), Some(serial)) if fails => Line::Fail { node, serial },
        (Some(node), Some(serial)) => Line::Expire { node, serial },
        _ => Line::Bad,
    }
}

/// A line of a keyword and three words more: `client N URL only-if-cached`.
fn line_with_three<'a>(keyword: &[u8], node: &[u8], url: &'a [u8], directive: &[u8]) -> Line<'a>
    ensures { command_text result ≡ with_three keyword.now node.now url.now directive.now }
{
    if keyword == b"client".as_slice() && directive == b"only-if-cached".as_slice() {
        client_line(node, url, true)
    } else {
        Line::Bad
    }
}

/// A line of a keyword and four words more: `origin N SERIAL STATUS BODY`.
fn line_with_four<'a>(
    keyword: &[u8],
    node: &[u8],
    serial: &[u8],
    status: &[u8],
    body: &'a [u8],
) -> Line<'a>
    ensures { command_text result ≡ with_four keyword.now node.now serial.now status.now body.now }
{
    if keyword != b"origin".as_slice() || body.is_empty() {
        return Line::Bad;
    }
    let (Some(node), Some(serial)) = (decimal_u8(node), decimal_u32(serial)) else {
        return Line::Bad;
    };
    match decimal_u16(status) {
        Some(status) => Line::Origin {
            node,
            serial,
            status,
            body,
        },
        None => Line::Bad,
    }
}
