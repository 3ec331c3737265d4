//! What the acknowledgement of a member changes that the number needs.
ghost use Rattle.std.specs.Prelude.{◌≡◌, ◌≤◌, true};
ghost use Rattle.purge_rules.specs.declared.nodes.Nodes.{Nodes as NodesOf};
ghost use Rattle.purge_rules.specs.Members.{is_among};
ghost use Rattle.purge_rules.specs.Needed.{needed};
ghost use Rattle.purge_master.specs.News.{IsNews};

use purge_rules::{MemberSet, Purges};

/// What the acknowledgement changes.
#[derive(Clone, Copy)]
pub(crate) enum News {
    /// Nothing: the number is not pending, or the member is marked and others are missing.
    Nothing,
    /// The member is marked now, and others are missing.
    Mark,
    /// No member is missing any more: the number is done.
    Done,
}

/// What it changes that this member acknowledges the number, which needs it and the others of
/// `needs`. Changes nothing itself.
pub(crate) fn news_of(purges: &Purges, needs: MemberSet, member: u8, number: u32) -> News
    requires needs { (nodes : NodesOf) × (needs ≡ needed nodes purges.now.admissions number) }
    requires among { is_among member needs ≡ true }
    requires id { (1 ≤ member) × (member ≤ 16) }
    ensures { IsNews needs purges.now member number result }
{
    if purges.last() < number {
        return News::Nothing;
    }
    match purges.marks(number) {
        Some(marked) => {
            let known = marked.has(member);
            let mut counted = marked;
            counted.insert(member);
            if needs.are_in(counted) {
                News::Done
            } else if known {
                News::Nothing
            } else {
                News::Mark
            }
        }
        None => News::Nothing,
    }
}
