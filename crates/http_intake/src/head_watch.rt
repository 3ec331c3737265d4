//! When to parse the octets of an unfinished head again.
ghost use Rattle.std.specs.Prelude.{◌≡◌, length, IsTrue};

use crate::head_end::{HeadEnd, LONGEST_HEAD};

/// What is known of the octets of an unfinished head, so that a slow head is not parsed at each
/// read.
///
/// A parse is due where the empty line that ends the head is within the new octets; where the new
/// octets are at least as many as those parsed before, so that a malformed head is refused early;
/// and where the window is full.
///
/// Cost: a head of n octets that comes one octet per read costs at most 3n octets parsed: 1, 2, 4
/// and so on, at most 2n together, and n at its end. Tests show the cost; the contract says only
/// that a parse is due where the window is full.
#[derive(Drop)]
pub struct HeadWatch {
    /// The number of octets parsed last.
    parsed: usize,
    /// Finds the end of the head.
    end: HeadEnd,
}

impl HeadWatch {
    /// The state for a head of which `parsed` octets were parsed. `may_begin_blank`: empty lines
    /// may come before it, as before each head (RFC 9112, section 2.2), but not before a trailer.
    pub fn new(parsed: usize, may_begin_blank: bool) -> HeadWatch {
        HeadWatch {
            parsed,
            end: HeadEnd::new(parsed, may_begin_blank),
        }
    }

    /// Whether the octets must be parsed now. The caller gives the octets of its last call and at
    /// least one more. Where it returns yes, they count as parsed. It always returns yes for 16,384
    /// octets.
    pub fn is_due(&mut self, window: &[u8]) -> bool
        ensures { length window.now ≡ 16384 → IsTrue result }
    {
        let unparsed = window.len().saturating_sub(self.parsed);
        let has_come = self.end.has_come(window);
        let is_due = window.len() == LONGEST_HEAD || unparsed >= self.parsed || has_come;
        if is_due {
            self.parsed = window.len();
        }
        is_due
    }
}
