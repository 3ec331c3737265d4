//! Where the head of a message ends.

/// The most octets that a head may have.
pub const LONGEST_HEAD: usize = 16384;

/// Finds the empty line that ends a head (RFC 9112, section 2.1) in octets that come in pieces. It
/// looks at each octet once.
///
/// A line ends with CRLF or with LF alone (section 2.2). Contracts say nothing of what it finds:
/// whoever reads a head parses it. Tests show where a head ends.
#[derive(Drop)]
pub struct HeadEnd {
    /// The number of octets looked at.
    seen: usize,
    /// The number of octets at the front that are line ends of empty lines before the head.
    blank: usize,
    /// Whether empty lines may stand before the head (RFC 9112, section 2.2).
    may_begin_blank: bool,
}

impl HeadEnd {
    /// A head of which the first `seen` octets are known not to end it. `may_begin_blank`: empty
    /// lines may come before it, as before each request (RFC 9112, section 2.2), but not before a
    /// trailer.
    pub fn new(seen: usize, may_begin_blank: bool) -> HeadEnd {
        HeadEnd {
            seen,
            blank: 0,
            may_begin_blank,
        }
    }

    /// Whether an empty line ends the head within the octets that are new. The caller gives the
    /// octets of its last call, and those that came after them.
    pub fn has_come(&mut self, octets: &[u8]) -> bool {
        self.skip_blank(octets);
        let from = self.seen.max(self.blank);
        self.seen = octets.len();
        let head = octets.get(self.blank..).unwrap_or_default();
        ends_empty_line(head, from.saturating_sub(self.blank))
    }

    /// Passes over the line ends of empty lines before the head.
    fn skip_blank(&mut self, octets: &[u8]) {
        if self.may_begin_blank {
            let rest = octets.get(self.blank..).unwrap_or_default();
            let more = rest
                .iter()
                .take_while(|octet| matches!(**octet, b'\r' | b'\n'));
            self.blank = self.blank.saturating_add(more.count());
        }
    }
}

/// Whether an empty line ends at one of the octets from `seen` on.
fn ends_empty_line(head: &[u8], seen: usize) -> bool {
    for place in seen..head.len() {
        if head[place] == b'\n' && is_empty_line(&head[..place]) {
            return true;
        }
    }
    false
}

/// Whether the octets before an LF end with an LF, or with an LF and a CR, or are none: the LF
/// ends an empty line.
fn is_empty_line(before: &[u8]) -> bool {
    let line = before.strip_suffix(b"\r").unwrap_or(before);
    matches!(line.last(), None | Some(b'\n'))
}
