//! Runs in which a member is admitted: node 1 is founding, and node 2 joins.
use crate::events::{A, Called, Met};
use crate::judged::verdict;
use crate::made::{Call, Said, Shift, Step, Told, calls_of, records_of};
use node_book::Record;
use node_rules::StepFault;
use purge_rules::MasterFault;
use run_rules::{Cause, Verdict};
use std::test::Fail;

/// Two members that are siblings by ICP, of which the second joins, and the origin of `http://o/`.
const JOINING: &str = "default_lifetime = 60
copies = 1000
bytes = 1048576
query_wait = 2000

[master]
address = \"127.0.0.1\"
htcp = 4800

[[node]]
id = 1
name = \"n1\"
address = \"127.0.0.1\"
http = 8101
icp = 3101
htcp = 4101
[[node.peer]]
id = 2
role = \"sibling\"
by = \"icp\"

[[node]]
id = 2
name = \"n2\"
joins = true
address = \"127.0.0.1\"
http = 8102
icp = 3102
htcp = 4102
[[node.peer]]
id = 1
role = \"sibling\"
by = \"icp\"

[[origin]]
host = \"o\"
port = 80
address = \"127.0.0.1\"
connect = 8080
";

/// Of a record: its index, and the bases with which it opens and closes.
type Bases = (usize, u32, u32);

/// A run: its name, its records, their bases where these are not 0, the master's calls, and its
/// first flaw, if it has one.
type Run = (
    &'static str,
    &'static [Shift],
    &'static [Bases],
    &'static [Call],
    Option<(u64, Cause)>,
);

/// Node 2 is admitted under the number 1.
const ADMITTED: Call = (1, Called::Admit(2), Told::Admitted(1));

/// The number of its admission comes to it.
const BASE_COMES: &[Step] = &[(2, Met::Base(1), Said::Acknowledged)];

/// Its store fails at that.
const STORE_FAULT: &[Step] = &[(2, Met::Base(1), Said::Fault(StepFault::StoreFault))];

/// A purge, under the number 1.
const PURGED: Call = (1, Called::Issue(A), Told::Issued(1));

/// Then an admission, under the number 2.
const ADMITS: Call = (2, Called::Admit(2), Told::Admitted(2));

/// Then a purge, under the number 3.
const PURGED_AGAIN: Call = (3, Called::Issue(A), Told::Issued(3));

/// All three.
const GIVEN: &[Call] = &[PURGED, ADMITS, PURGED_AGAIN];

/// The CLRs of both purges come to node 1.
const FIRST_OBEYS: &[Step] = &[
    (4, Met::Clear(1, A), Said::Acknowledged),
    (5, Met::Clear(3, A), Said::Obeyed(3)),
];

/// Those of the admission and of the second purge come to node 2.
const SECOND_OBEYS: &[Step] = &[
    (6, Met::Base(2), Said::Obeyed(2)),
    (7, Met::Clear(3, A), Said::Obeyed(3)),
];

const OBEYED: &[Shift] = &[
    Shift(1, 0, FIRST_OBEYS, Some(3)),
    Shift(2, 0, SECOND_OBEYS, Some(3)),
];

const OBEYED_BASES: &[Bases] = &[(1, 0, 2)];

const RUNS: &[Run] = &[
    (
        "an admission",
        &[Shift(2, 0, BASE_COMES, Some(0))],
        &[(0, 0, 1)],
        &[ADMITTED, (3, Called::Acknowledge(2, 2), Told::Done(1))],
        None,
    ),
    (
        "an admission that leaves no base",
        &[Shift(2, 0, BASE_COMES, Some(0))],
        &[],
        &[ADMITTED],
        Some((2, Cause::OtherState)),
    ),
    (
        "an admission that another member acknowledges",
        &[Shift(2, 0, BASE_COMES, Some(0))],
        &[(0, 0, 1)],
        &[ADMITTED, (3, Called::Acknowledge(1, 2), Told::Done(1))],
        Some((3, Cause::NotSent)),
    ),
    (
        "an admission that comes to another member",
        &[Shift(1, 0, BASE_COMES, Some(0))],
        &[(0, 0, 1)],
        &[ADMITTED],
        Some((2, Cause::NotSent)),
    ),
    (
        "an admission that nobody acknowledged",
        &[],
        &[],
        &[ADMITTED, (2, Called::Status(1), Told::IsDone)],
        Some((2, Cause::OtherReply)),
    ),
    (
        "a second admission",
        &[],
        &[],
        &[ADMITTED, (2, Called::Admit(2), Told::Admitted(2))],
        Some((2, Cause::OtherReply)),
    ),
    (
        "a second admission that is refused",
        &[],
        &[],
        &[
            ADMITTED,
            (2, Called::Admit(2), Told::Fault(MasterFault::NotJoining)),
        ],
        None,
    ),
    (
        "an admission of a founding member",
        &[],
        &[],
        &[(1, Called::Admit(1), Told::Admitted(1))],
        Some((1, Cause::OtherReply)),
    ),
    (
        "an outside node serves 503",
        &[Shift(2, 0, &[(1, Met::Client(A), Said::Status(503))], Some(0))],
        &[],
        &[],
        None,
    ),
    (
        "an outside node looks for a copy",
        &[Shift(2, 0, &[(1, Met::Cached(A), Said::Status(504))], Some(0))],
        &[],
        &[],
        Some((1, Cause::OtherReply)),
    ),
    (
        "a founding node serves 503",
        &[Shift(1, 0, &[(1, Met::Cached(A), Said::Status(503))], Some(0))],
        &[],
        &[],
        Some((1, Cause::OtherReply)),
    ),
    (
        "a store fault at an admission, which is not stored",
        &[Shift(2, 0, STORE_FAULT, None), Shift(2, 0, &[], Some(0))],
        &[],
        &[ADMITTED],
        None,
    ),
    (
        "a store fault at an admission, which is stored",
        &[Shift(2, 0, STORE_FAULT, None), Shift(2, 0, &[], Some(0))],
        &[(1, 1, 1)],
        &[ADMITTED],
        None,
    ),
    (
        "a store fault at an admission, and a greater base",
        &[Shift(2, 0, STORE_FAULT, None), Shift(2, 0, &[], Some(0))],
        &[(1, 2, 2)],
        &[ADMITTED],
        Some((0, Cause::OtherState)),
    ),
    (
        "purges before and after an admission",
        OBEYED,
        OBEYED_BASES,
        GIVEN,
        None,
    ),
    (
        "a purge before an admission comes to the admitted node",
        &[Shift(2, 0, &[(4, Met::Clear(1, A), Said::Acknowledged)], Some(1))],
        &[],
        GIVEN,
        Some((4, Cause::NotSent)),
    ),
    (
        "a purge before an admission waits for nobody else",
        OBEYED,
        OBEYED_BASES,
        &[
            PURGED,
            ADMITS,
            PURGED_AGAIN,
            (8, Called::Obeys(1, 1), Told::Done(1)),
            (9, Called::Obeys(1, 3), Told::NoneDone),
            (10, Called::Obeys(2, 3), Told::Done(3)),
            (11, Called::Obeys(2, 2), Told::Done(2)),
        ],
        None,
    ),
    (
        "a purge before an admission waits for the admitted node",
        OBEYED,
        OBEYED_BASES,
        &[
            PURGED,
            ADMITS,
            PURGED_AGAIN,
            (8, Called::Obeys(1, 1), Told::NoneDone),
        ],
        Some((8, Cause::OtherReply)),
    ),
    (
        "a purge after an admission does not wait for the admitted node",
        OBEYED,
        OBEYED_BASES,
        &[
            PURGED,
            ADMITS,
            PURGED_AGAIN,
            (8, Called::Obeys(1, 3), Told::Done(3)),
        ],
        Some((8, Cause::OtherReply)),
    ),
];

/// Gives the floors of these records their bases.
fn raise_bases(records: &mut Vec<Record>, bases: &[Bases]) {
    for (at, opens, closes) in bases {
        if let Some(record) = records.get_mut(*at) {
            record.opening.floors.raise_base(*opens);
            record.closing.floors.raise_base(*closes);
        }
    }
}

/// The verdict on a run.
fn verdict_on(rt: &HostRuntime, run: &Run) -> Result<Verdict, Fail> {
    let (_, shifts, bases, calls, _) = *run;
    let mut records = records_of(rt.alloc(), shifts)?;
    raise_bases(&mut records, bases);
    let entries = calls_of(rt.alloc(), calls)?;
    verdict(rt, JOINING, records.as_slice(), entries.as_slice())
}

/// The verdict that a run is to have.
fn wanted(run: &Run) -> Verdict {
    match run.4 {
        Some((place, cause)) => Verdict::No { place, cause },
        None => Verdict::Yes,
    }
}

/// The first run that has another verdict than it is to have, and that verdict.
fn first_other(rt: &HostRuntime) -> Result<Option<(&'static str, Verdict)>, Fail> {
    for run in RUNS {
        let verdict = verdict_on(rt, run)?;
        if verdict != wanted(run) {
            return Ok(Some((run.0, verdict)));
        }
    }
    Ok(None)
}

#[test]
fn admissions_are_judged(rt: HostRuntime) -> Result<(), Fail> {
    let other = first_other(&rt)?;
    assert!(rt; other.is_none(), "{other:?}");
    Ok(())
}
