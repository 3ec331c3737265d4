//! Runs with faults of nodes and of the master, and what comes behind them.
use crate::events::{A, Called, Met};
use crate::judged::{ASK, NO_COPY, Run};
use crate::made::{Call, Said, Shift, Step, Told};
use node_rules::StepFault;
use purge_rules::MasterFault;
use run_rules::Cause;
use tests_kit::{ONE, TWO};

/// Purge 1 is issued at place 1.
const ISSUED: Call = (1, Called::Issue(A), Told::Issued(1));

/// The store fails at the CLR of purge 1.
const STORE_FAULT: &[Step] = &[(2, Met::Clear(1, A), Said::Fault(StepFault::StoreFault))];

/// There is no memory for the CLR of purge 1.
const NO_MEMORY: &[Step] = &[(2, Met::Clear(1, A), Said::Fault(StepFault::NoMemory))];

/// The CLR of purge 1 is taken.
const CLEARED: &[Step] = &[(2, Met::Clear(1, A), Said::Acknowledged)];

/// There is no memory for an ask.
const UNASKED: Step = (1, ASK, Said::Fault(StepFault::NoMemory));

/// The master's store fails.
const UNISSUED: Call = (1, Called::Issue(A), Told::Fault(MasterFault::StoreFault));

pub(crate) const RESTARTS: &[Run] = &[
    // The only node closes at the CLR, and its second record opens with or without the purge.
    (
        "a store fault, without the purge",
        ONE,
        &[Shift(1, 0, STORE_FAULT, None), Shift(1, 0, &[], Some(0))],
        &[ISSUED],
        None,
    ),
    (
        "a store fault, with the purge",
        ONE,
        &[Shift(1, 0, STORE_FAULT, None), Shift(1, 1, &[], Some(1))],
        &[ISSUED],
        None,
    ),
    (
        "a store fault, with another floor",
        ONE,
        &[Shift(1, 0, STORE_FAULT, None), Shift(1, 2, &[], Some(2))],
        &[ISSUED],
        Some((0, Cause::OtherState)),
    ),
    (
        "no memory, without the purge",
        ONE,
        &[Shift(1, 0, NO_MEMORY, None), Shift(1, 0, &[], Some(0))],
        &[ISSUED],
        None,
    ),
    (
        "no memory, with the purge",
        ONE,
        &[Shift(1, 0, NO_MEMORY, None), Shift(1, 1, &[], Some(1))],
        &[ISSUED],
        None,
    ),
    (
        "no memory, with another floor",
        ONE,
        &[Shift(1, 0, NO_MEMORY, None), Shift(1, 2, &[], Some(2))],
        &[ISSUED],
        Some((0, Cause::OtherState)),
    ),
    // It takes the CLR, and its second record opens.
    (
        "a second record with its floors",
        ONE,
        &[Shift(1, 0, CLEARED, Some(1)), Shift(1, 1, &[], Some(1))],
        &[ISSUED],
        None,
    ),
    (
        "a second record with lower floors",
        ONE,
        &[Shift(1, 0, CLEARED, Some(1)), Shift(1, 0, &[], Some(0))],
        &[ISSUED],
        Some((0, Cause::OtherState)),
    ),
    // There is no memory for a step.
    (
        "no memory for an ask",
        TWO,
        &[Shift(1, 0, &[UNASKED, (2, ASK, NO_COPY)], Some(0))],
        &[],
        None,
    ),
    (
        "no memory for a CLR",
        ONE,
        &[Shift(1, 0, NO_MEMORY, Some(0)), Shift(1, 0, &[], Some(0))],
        &[ISSUED],
        None,
    ),
    (
        "no memory for a CLR, with the purge",
        ONE,
        &[Shift(1, 0, NO_MEMORY, Some(1)), Shift(1, 1, &[], Some(1))],
        &[ISSUED],
        Some((2, Cause::OtherState)),
    ),
    (
        "closed by an ask",
        ONE,
        &[Shift(1, 0, &[UNASKED], None)],
        &[],
        Some((1, Cause::OtherState)),
    ),
    // The master's store fails.
    (
        "a closed master tells a status",
        ONE,
        &[],
        &[
            UNISSUED,
            (2, Called::Issue(A), Told::Fault(MasterFault::Closed)),
            (3, Called::Status(1), Told::Unknown),
        ],
        None,
    ),
    (
        "a closed master issues",
        ONE,
        &[],
        &[
            UNISSUED,
            (2, Called::Issue(A), Told::Issued(1)),
            (3, Called::Status(1), Told::Unknown),
        ],
        Some((2, Cause::OtherReply)),
    ),
    (
        "another number is issued",
        ONE,
        &[],
        &[(1, Called::Issue(A), Told::Issued(2))],
        Some((1, Cause::OtherReply)),
    ),
    (
        "a master is closed at once",
        ONE,
        &[],
        &[(1, Called::Issue(A), Told::Fault(MasterFault::Closed))],
        Some((1, Cause::OtherReply)),
    ),
    // The roster has no such node.
    (
        "an entry of a node that the roster lacks",
        TWO,
        &[Shift(3, 0, &[(1, ASK, NO_COPY)], Some(0))],
        &[],
        Some((1, Cause::OtherState)),
    ),
    (
        "no entry of a node that the roster lacks",
        TWO,
        &[Shift(3, 0, &[], Some(0))],
        &[],
        Some((0, Cause::OtherState)),
    ),
];
