//! Runs with several flaws at one place, of which the first cause is named: `DoublePlace`,
//! `NotSent`, `OtherReply`, `OtherState`.
use crate::events::{A, Called};
use crate::judged::{ASK, NO_COPY, Run, WRONG};
use crate::made::{Said, Shift, Told};
use crate::sent::HIT;
use purge_rules::MasterFault;
use run_rules::Cause;
use tests_kit::{ONE, TWO};

pub(crate) const CAUSES: &[Run] = &[
    (
        "twice, another status first",
        TWO,
        &[Shift(1, 0, &[(1, ASK, WRONG), (1, ASK, NO_COPY)], Some(0))],
        &[],
        Some((1, Cause::DoublePlace)),
    ),
    (
        "twice, another status behind it",
        TWO,
        &[Shift(1, 0, &[(1, ASK, NO_COPY), (1, ASK, WRONG)], Some(0))],
        &[],
        Some((1, Cause::DoublePlace)),
    ),
    (
        "twice, a floor more",
        TWO,
        &[Shift(1, 0, &[(1, ASK, NO_COPY), (1, ASK, NO_COPY)], Some(1))],
        &[],
        Some((1, Cause::DoublePlace)),
    ),
    (
        "another status, a floor more",
        TWO,
        &[Shift(1, 0, &[(1, ASK, NO_COPY), (2, ASK, WRONG)], Some(1))],
        &[],
        Some((2, Cause::OtherReply)),
    ),
    (
        "twice, not sent",
        TWO,
        &[Shift(1, 0, &[(1, HIT, Said::Nothing), (1, ASK, NO_COPY)], Some(0))],
        &[],
        Some((1, Cause::DoublePlace)),
    ),
    (
        "two calls, another answer",
        ONE,
        &[],
        &[
            (1, Called::Issue(A), Told::Fault(MasterFault::Closed)),
            (1, Called::Status(1), Told::Unknown),
        ],
        Some((1, Cause::DoublePlace)),
    ),
    (
        "at two nodes, another status",
        TWO,
        &[
            Shift(1, 0, &[(3, ASK, WRONG)], Some(0)),
            Shift(2, 0, &[(3, ASK, NO_COPY)], Some(0)),
        ],
        &[],
        Some((3, Cause::DoublePlace)),
    ),
    (
        "not sent, a floor more",
        TWO,
        &[Shift(1, 0, &[(1, ASK, NO_COPY), (2, HIT, Said::Nothing)], Some(1))],
        &[],
        Some((2, Cause::NotSent)),
    ),
    (
        "not sent, another answer",
        ONE,
        &[],
        &[(1, Called::Acknowledge(1, 2), Told::Done(1))],
        Some((1, Cause::NotSent)),
    ),
];
