//! The nodes of a roster, as the master sees them.
ghost use Rattle.std.specs.Prelude.{◌≡◌};
ghost use Rattle.purge_rules.specs.Needed.{nodes_of};

use crate::MemberSet;
use roster::Roster;

/// The members of a roster, and which of them join.
#[derive(Clone, Copy, Debug)]
pub struct Nodes {
    /// All members.
    pub members: MemberSet,
    /// Those that join: each takes part once the master has admitted it. All others are founding.
    pub joining: MemberSet,
}

impl Nodes {
    /// The nodes of a roster.
    pub fn of(roster: &Roster) -> Nodes
        ensures { result ≡ nodes_of roster.now }
    {
        Nodes {
            members: MemberSet::of(roster),
            joining: MemberSet::joining(roster),
        }
    }
}
