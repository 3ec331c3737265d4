//! Whether the files of the members have the numbers that the members have acknowledged, and no
//! others.
ghost use Rattle.std.specs.Prelude.{◌≡◌, ◌==◌, ◌≤◌, ℕ, false, find, option_map, unwrap_or};
ghost use Rattle.std.specs.Prelude.{MatchOption};
ghost use Rattle.purge_rules.specs.Members.{is_among};
ghost use Rattle.purge_rules.specs.Needed.{needed, nodes_of};
ghost use Rattle.purge_rules.specs.Purges.{AreNumbered};
ghost use Rattle.cluster_process.specs.Stored.{has_acknowledged as has_acknowledged_by, HasStored};
ghost use Rattle.cluster_process.specs.Stored.{Lacks, AreStored, IsBehind, IsStored};
ghost use Rattle.cluster_process.specs.Stored.{is_early, IsInTime};

use crate::fault::{ClusterFault, OtherFile};
use crate::node_floors::NodeFloors;
use floor_rules::FloorStore;
use purge_rules::{Admission, Nodes, Purges};
use roster::{LAST_MEMBER, Roster};

/// The greatest number of this member's floors; 0 where they are not open.
fn seen_by<F: FloorStore>(nodes: &[NodeFloors<F>], id: u8) -> u32
    ensures { result ≡ unwrap_or (option_map (λ n. n.seen) (find (λ n. n.id == id) nodes.now)) 0 }
{
    match nodes.iter().find(|node| node.id == id) {
        Some(node) => node.seen,
        None => 0,
    }
}

/// The admission of this member, pending or done.
fn admission_of(given: &Purges, id: u8) -> Option<&Admission>
    ensures value { option_map (λ a. a.now) result
        ≡ find (λ a. a.member == id) given.now.admissions }
    ensures numbered { AreNumbered given.now }
{
    given.admissions().iter().find(|it| it.member == id)
}

/// A number such that none up to it needs the member. For an id of no member, and for a member that
/// was not admitted, it is the last one, so that as many numbers as were given are not looked at.
fn needed_above(given: &Purges, nodes: &Nodes, id: u8) -> u32
    ensures { (number : ℕ) → 1 ≤ number → number ≤ result → number ≤ given.now.last →
        is_among id (needed nodes.now given.now.admissions number) ≡ false }
{
    if !nodes.members.has(id) {
        return given.last();
    }
    if !nodes.joining.has(id) {
        return 0;
    }
    match admission_of(given, id) {
        Some(admission) => admission.number.saturating_sub(1),
        None => given.last(),
    }
}

/// Whether the number needs the member, and is not pending for it.
fn has_acknowledged(given: &Purges, nodes: &Nodes, id: u8, number: u32) -> bool
    ensures { result ≡ has_acknowledged_by nodes.now given.now id number }
{
    given.needed(nodes, number).has(id) && !given.missing(nodes, number).has(id)
}

/// The first number above `greatest` that the member has acknowledged. Those that are looked at are
/// pending for it or admissions of others, but for the one that is found.
fn first_lacked(given: &Purges, nodes: &Nodes, id: u8, greatest: u32) -> Option<u32>
    ensures { MatchOption result (HasStored nodes.now given.now id greatest)
        (Lacks nodes.now given.now id greatest) }
{
    for before in greatest.max(needed_above(given, nodes, id))..given.last() {
        if has_acknowledged(given, nodes, id, before + 1) {
            return Some(before + 1);
        }
    }
    None
}

/// The first member, by id, whose file lacks a number that the member has acknowledged, with the
/// first such number.
fn first_behind<F: FloorStore>(
    given: &Purges,
    nodes: &Nodes,
    floors: &[NodeFloors<F>],
) -> Option<(u8, u32)>
    ensures { MatchOption result
        (AreStored nodes.now given.now
        (λ id. unwrap_or (option_map (λ n. n.seen) (find (λ n. n.id == id) floors.now)) 0))
        (IsBehind nodes.now given.now
        (λ id. unwrap_or (option_map (λ n. n.seen) (find (λ n. n.id == id) floors.now)) 0)) }
{
    for place in 0..LAST_MEMBER {
        let id = place + 1;
        if let Some(number) = first_lacked(given, nodes, id, seen_by(floors, id)) {
            return Some((id, number));
        }
    }
    None
}

/// The first member that joins, has a number in its file, and was not admitted: the master has sent
/// it nothing yet, so that the file is of another cluster, or the member was a founding one.
fn first_early<'a, F: FloorStore>(
    given: &Purges,
    nodes: &Nodes,
    floors: &'a [NodeFloors<F>],
) -> Option<&'a NodeFloors<F>>
    ensures { option_map (λ n. n.now) result
        ≡ find (λ n. is_early nodes.now given.now n.id n.seen) floors.now }
{
    floors.iter().find(|node| {
        nodes.joining.has(node.id) && !given.is_admitted(node.id) && 0 < node.seen
    })
}

/// Refuses a folder where the file of a joining member has a number before the member is admitted:
/// it could serve what was purged since.
pub(crate) fn judge_joining<F: FloorStore>(
    dir: String,
    roster: &Roster,
    given: &Purges,
    nodes: &[NodeFloors<F>],
) -> Result<(), ClusterFault>
    ensures { IsInTime (option_map (λ n. n.id) (find
        (λ n. is_early (nodes_of roster.now) given.now n.id n.seen) nodes.now)) result }
{
    match first_early(given, &Nodes::of(roster), nodes) {
        Some(node) => Err(ClusterFault::OtherRoster {
            dir,
            id: node.id,
            what: OtherFile::Early,
        }),
        None => Ok(()),
    }
}

/// Refuses a folder where the file of a member lacks a number that the member has acknowledged: its
/// floors are lost, and with them a purge that may be reported done.
pub(crate) fn judge_files<F: FloorStore>(
    dir: String,
    roster: &Roster,
    given: &Purges,
    nodes: &[NodeFloors<F>],
) -> Result<(), ClusterFault>
    ensures { IsStored (nodes_of roster.now) given.now
        (λ id. unwrap_or (option_map (λ n. n.seen) (find (λ n. n.id == id) nodes.now)) 0) result }
{
    match first_behind(given, &Nodes::of(roster), nodes) {
        Some((id, number)) => Err(ClusterFault::MemberBehind { dir, id, number }),
        None => Ok(()),
    }
}
