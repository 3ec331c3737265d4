//! Runs in which something comes that nobody sent.
use crate::events::{A, Called, Met};
use crate::judged::{ASK, NO_COPY, Run};
use crate::made::{Call, Said, Shift, Told};
use icp_wire::IcpOp;
use node_rules::StepFault;
use run_rules::Cause;
use tests_kit::{ONE, TWO};

/// Node 2 says by ICP that it holds a copy, which nobody asked for.
pub(crate) const HIT: Met = Met::Icp(3102, IcpOp::Hit, 32, A);

/// Node 2 answers a fetch, which nobody asked for.
const ANSWER: Met = Met::PeerAnswer(2, 33, None, A);

/// The only node takes the CLR of purge 1 at place 2.
const CLEARED: &[Shift] = &[Shift(1, 0, &[(2, Met::Clear(1, A), Said::Acknowledged)], Some(1))];

/// Purge 1 is issued at place 1.
const ISSUED: Call = (1, Called::Issue(A), Told::Issued(1));

pub(crate) const SENT: &[Run] = &[
    (
        "a hit that no member sent",
        TWO,
        &[Shift(1, 0, &[(1, ASK, NO_COPY), (2, HIT, Said::Nothing)], Some(0))],
        &[],
        Some((2, Cause::NotSent)),
    ),
    (
        "an ask that no member sent",
        TWO,
        &[Shift(
            1,
            0,
            &[
                (1, ASK, NO_COPY),
                (2, Met::PeerAsk(2, A), Said::StatusTo(2, 504)),
            ],
            Some(0),
        )],
        &[],
        Some((2, Cause::NotSent)),
    ),
    (
        "an answer that no member sent",
        TWO,
        &[Shift(
            1,
            0,
            &[
                (1, ASK, NO_COPY),
                (2, ANSWER, Said::Fault(StepFault::UnknownSerial)),
            ],
            Some(0),
        )],
        &[],
        Some((2, Cause::NotSent)),
    ),
    (
        "a CLR that the master did not send",
        TWO,
        &[Shift(
            1,
            0,
            &[(1, ASK, NO_COPY), (2, Met::Clear(1, A), Said::Acknowledged)],
            Some(0),
        )],
        &[],
        Some((2, Cause::NotSent)),
    ),
    (
        "a hit that no member sent, with another reply",
        TWO,
        &[Shift(1, 0, &[(1, ASK, NO_COPY), (2, HIT, NO_COPY)], Some(0))],
        &[],
        Some((2, Cause::NotSent)),
    ),
    (
        "the node's answer comes to the master",
        ONE,
        CLEARED,
        &[ISSUED, (3, Called::Acknowledge(1, 2), Told::Done(1))],
        None,
    ),
    (
        "another code comes to the master",
        ONE,
        CLEARED,
        &[ISSUED, (3, Called::Acknowledge(1, 0), Told::Done(1))],
        Some((3, Cause::NotSent)),
    ),
    (
        "an answer of nobody",
        ONE,
        &[],
        &[ISSUED, (2, Called::Acknowledge(1, 2), Told::Done(1))],
        Some((2, Cause::NotSent)),
    ),
    (
        "a CLR before its issue",
        ONE,
        CLEARED,
        &[(3, Called::Issue(A), Told::Issued(1))],
        Some((2, Cause::NotSent)),
    ),
];
