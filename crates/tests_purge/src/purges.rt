//! Members and purges, in worked rows.
use crate::calls::{add, admission_at, admit, counts, is_marked, loaded, mark};
use htcp_wire::fits;
use purge_rules::{
    Admission, MemberSet, MemoryPurges, Nodes, PurgeStore, Purges, Status, base_clear, clear,
};
use std::alloc::Global;
use std::test::Fail;
use url_key::Key;

fn set_of(ids: &[u8]) -> MemberSet {
    let mut set = MemberSet::new();
    for id in ids {
        if *id >= 1 && *id <= 16 {
            set.insert(*id);
        }
    }
    set
}

/// Whether each of these is in the set of 1, 3 and 16.
const MEMBERS: [(u8, bool); 8] = [
    (0, false),
    (1, true),
    (2, false),
    (3, true),
    (15, false),
    (16, true),
    (17, false),
    (255, false),
];

/// Whether that set is in each of these, and how many of its members are not.
const OTHERS: [(&[u8], bool, u8); 3] = [
    (&[], false, 3),
    (&[1, 3], false, 1),
    (&[1, 2, 3, 16], true, 0),
];

#[test]
fn sets_of_members(rt: HostRuntime) -> Result<(), Fail> {
    let odd = set_of(&[16, 3, 1, 3]);
    for (id, expected) in MEMBERS {
        assert_eq!(rt; odd.has(id), expected, "{id}");
    }
    for (ids, within, missing) in OTHERS {
        let other = set_of(ids);
        let answer = (odd.are_in(other), odd.missing_in(other).count());
        assert_eq!(rt; answer, (within, missing), "{ids:?}");
    }
    assert!(rt; MemberSet::new().are_in(odd));
    Ok(())
}

/// Adds a purge, where its number is above the last one.
fn add_to(alloc: Global, purges: &mut Purges, number: u32, url: &str) -> Result<(), Fail> {
    let key = Key::read(alloc, url.as_bytes())?;
    if purges.last() < number {
        purges.add(alloc, number, &key)?;
    }
    Ok(())
}

/// Purges of two URLs.
const ISSUED: [(u32, &str); 3] = [(1, "http://o/a"), (2, "http://o/b"), (5, "http://o/a")];

/// These purges, of which member 1 has acknowledged the second, and the first is finished.
fn three_purges(alloc: Global) -> Result<Purges, Fail> {
    let mut purges = Purges::new(alloc);
    for (number, url) in ISSUED {
        add_to(alloc, &mut purges, number, url)?;
    }
    purges.mark(2, 1);
    purges.mark(2, 1);
    purges.mark(3, 1);
    purges.finish(1);
    purges.finish(4);
    Ok(purges)
}

/// How far each of them is for members 1 and 2.
const STATUSES: [(u32, Status); 6] = [
    (0, Status::Unknown),
    (1, Status::Done),
    (2, Status::Pending(1)),
    (3, Status::Done),
    (5, Status::Pending(2)),
    (6, Status::Unknown),
];

/// Nodes of these ids, none of which joins.
fn founding(ids: &[u8]) -> Nodes {
    Nodes {
        members: set_of(ids),
        joining: MemberSet::new(),
    }
}

/// The first number that is otherwise.
fn wrong_status(purges: &Purges, nodes: &Nodes) -> Option<u32> {
    for (number, expected) in STATUSES {
        if purges.status(nodes, number) != expected {
            return Some(number);
        }
    }
    None
}

/// What is due of them for these nodes.
fn is_due(alloc: Global, purges: &Purges, nodes: &Nodes) -> Result<bool, Fail> {
    let due = purges.copy(alloc)?.due(alloc, nodes)?;
    Ok(due.as_slice() == [(2u32, 2u8), (5, 1), (5, 2)].as_slice())
}

fn are_two(purges: &Purges) -> bool {
    purges.pending().len() == 2 && purges.len() == 2 && !purges.is_empty() && !purges.is_full()
}

/// Gives the number 9 away, and whether it is the last one and done.
fn is_given(purges: &mut Purges, nodes: &Nodes) -> bool {
    if purges.last() < 9 {
        purges.give(9);
    }
    purges.last() == 9 && purges.status(nodes, 9) == Status::Done
}

#[test]
fn purges_from_issue_to_done(rt: HostRuntime) -> Result<(), Fail> {
    let nodes = founding(&[1, 2]);
    let mut purges = three_purges(rt.alloc())?;
    assert_eq!(rt; wrong_status(&purges, &nodes), None);
    assert!(rt; is_due(rt.alloc(), &purges, &nodes)?);
    assert!(rt; are_two(&purges));
    assert!(rt; is_given(&mut purges, &nodes));
    Ok(())
}

/// Admits a member that has no admission, where the number is above the last one.
fn admit_to(purges: &mut Purges, number: u32, id: u8) -> Result<(), Fail> {
    if id < 1 || id > 16 || number <= purges.last() || purges.is_admitted(id) {
        return Err("a member without an admission, and a number above the last one".into());
    }
    Ok(purges.admit(number, id)?)
}

/// The nodes 1 and 2, which are founding, and 3, which joins.
fn three_nodes() -> Nodes {
    Nodes {
        members: set_of(&[1, 2, 3]),
        joining: set_of(&[3]),
    }
}

/// A purge, the admission of node 3, and a purge.
fn admitted_between(alloc: Global) -> Result<Purges, Fail> {
    let mut purges = Purges::new(alloc);
    add_to(alloc, &mut purges, 1, "http://o/a")?;
    admit_to(&mut purges, 2, 3)?;
    add_to(alloc, &mut purges, 3, "http://o/a")?;
    Ok(purges)
}

/// The nodes that each of these numbers needs.
const NEEDED: [(u32, &[u8]); 3] = [(1, &[1, 2]), (2, &[3]), (3, &[1, 2, 3])];

/// The first number that needs others.
fn wrong_needed(purges: &Purges, nodes: &Nodes) -> Option<u32> {
    for (number, ids) in NEEDED {
        let found = purges.needed(nodes, number);
        let wanted = set_of(ids);
        if !found.are_in(wanted) || !wanted.are_in(found) {
            return Some(number);
        }
    }
    None
}

/// What is due of them, before node 3 has acknowledged its admission and after it.
const DUE: [&[(u32, u8)]; 2] = [
    &[(1, 1), (1, 2), (2, 3), (3, 1), (3, 2), (3, 3)],
    &[(1, 1), (1, 2), (3, 1), (3, 2), (3, 3)],
];

#[test]
fn an_admission_between_purges(rt: HostRuntime) -> Result<(), Fail> {
    let nodes = three_nodes();
    let mut purges = admitted_between(rt.alloc())?;
    assert_eq!(rt; wrong_needed(&purges, &nodes), None);
    for due in DUE {
        let found = purges.due(rt.alloc(), &nodes)?;
        assert!(rt; found.as_slice() == due);
        purges.finish(2);
    }
    assert!(rt; purges.status(&nodes, 2) == Status::Done);
    Ok(())
}

/// What is wrong where a purge is added, marked and finished.
fn flaw<P: PurgeStore>(store: &mut P, alloc: Global) -> Result<Option<&'static str>, Fail> {
    if add(store, alloc, 65537, "http://o/a")? != Ok(()) {
        return Ok(Some("added"));
    }
    if mark(store, alloc, 65537, 1)? != Ok(()) {
        return Ok(Some("marked"));
    }
    if !is_marked(store, alloc, 65537, "http://o/a", 1, 2)? {
        return Ok(Some("marked by member 1 alone"));
    }
    if store.finish(alloc, 65537) != Ok(()) {
        return Ok(Some("finished"));
    }
    if counts(store, alloc)? != (65537, 0) || store.failures() != 0 {
        return Ok(Some("none pending, and no failure"));
    }
    Ok(None)
}

/// What is wrong where a member is admitted and its admission is finished.
fn admission_flaw<P: PurgeStore>(
    store: &mut P,
    alloc: Global,
) -> Result<Option<&'static str>, Fail> {
    if admit(store, alloc, 65538, 16)? != Ok(()) {
        return Ok(Some("admitted"));
    }
    let mut wanted = Admission {
        member: 16,
        number: 65538,
        is_done: false,
    };
    if admission_at(&loaded(store, alloc)?, 0) != Some(wanted) {
        return Ok(Some("pending"));
    }
    if store.finish(alloc, 65538) != Ok(()) {
        return Ok(Some("finished"));
    }
    wanted.is_done = true;
    if admission_at(&loaded(store, alloc)?, 0) != Some(wanted) {
        return Ok(Some("done"));
    }
    Ok(None)
}

#[test]
fn purges_in_memory(rt: HostRuntime) -> Result<(), Fail> {
    let mut store = MemoryPurges::new(rt.alloc());
    assert_eq!(rt; flaw(&mut store, rt.alloc())?, None);
    assert_eq!(rt; admission_flaw(&mut store, rt.alloc())?, None);
    Ok(())
}

#[test]
fn a_clear_fits_a_datagram(rt: HostRuntime) -> Result<(), Fail> {
    let key = Key::read(rt.alloc(), b"http://o/a")?;
    let message = clear(rt.alloc(), 65537, &key)?;
    assert!(rt; message.trans == 65537 && fits(&message));
    let message = base_clear(rt.alloc(), 65538)?;
    assert!(rt; message.trans == 65538 && fits(&message));
    Ok(())
}
