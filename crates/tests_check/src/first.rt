//! Runs with flaws in several records, whose places interleave: the least place is named, and the
//! first cause there.
use crate::events::{A, Called};
use crate::judged::{ASK, NO_COPY, Run, WRONG};
use crate::made::{Said, Shift, Step, Told};
use crate::sent::HIT;
use run_rules::Cause;
use tests_kit::TWO;

/// A record whose second entry has another status.
const OTHER_REPLY: &[Step] = &[(1, ASK, NO_COPY), (4, ASK, WRONG)];

/// A record with a hit that no member sent between two asks.
const UNSENT: &[Step] = &[
    (1, ASK, NO_COPY),
    (3, HIT, Said::Nothing),
    (5, ASK, NO_COPY),
];

pub(crate) const FIRST: &[Run] = &[
    // Two records have a flaw each.
    (
        "another status at 4, another at 3",
        TWO,
        &[
            Shift(1, 0, OTHER_REPLY, Some(0)),
            Shift(2, 0, &[(2, ASK, NO_COPY), (3, ASK, WRONG)], Some(0)),
        ],
        &[],
        Some((3, Cause::OtherReply)),
    ),
    (
        "another status at 4, a floor more at 5",
        TWO,
        &[
            Shift(1, 0, OTHER_REPLY, Some(0)),
            Shift(2, 0, &[(2, ASK, NO_COPY), (5, ASK, NO_COPY)], Some(1)),
        ],
        &[],
        Some((4, Cause::OtherReply)),
    ),
    (
        "a floor more at 2, not sent at 3",
        TWO,
        &[
            Shift(1, 0, UNSENT, Some(0)),
            Shift(2, 0, &[(2, ASK, NO_COPY)], Some(1)),
        ],
        &[],
        Some((2, Cause::OtherState)),
    ),
    (
        "another status at 4, the master's place falls to 2",
        TWO,
        &[Shift(1, 0, OTHER_REPLY, Some(0))],
        &[
            (5, Called::Status(1), Told::Unknown),
            (2, Called::Status(1), Told::Unknown),
        ],
        Some((2, Cause::DoublePlace)),
    ),
    (
        "another status at 4, the master's place falls to 5",
        TWO,
        &[Shift(1, 0, OTHER_REPLY, Some(0))],
        &[
            (6, Called::Status(1), Told::Unknown),
            (5, Called::Status(1), Told::Unknown),
        ],
        Some((4, Cause::OtherReply)),
    ),
    // A record opened wrongly.
    (
        "opened wrongly, not sent at 3",
        TWO,
        &[Shift(1, 1, UNSENT, Some(1))],
        &[],
        Some((3, Cause::NotSent)),
    ),
    (
        "opened wrongly, not sent at its last place",
        TWO,
        &[Shift(1, 1, &[(1, ASK, NO_COPY), (3, HIT, Said::Nothing)], Some(1))],
        &[],
        Some((3, Cause::NotSent)),
    ),
    (
        "opened wrongly, another status at 2 elsewhere",
        TWO,
        &[
            Shift(1, 1, UNSENT, Some(1)),
            Shift(2, 0, &[(2, ASK, WRONG)], Some(0)),
        ],
        &[],
        Some((2, Cause::OtherReply)),
    ),
    (
        "a second record opened wrongly, not sent at 3",
        TWO,
        &[
            Shift(1, 0, &[(1, ASK, NO_COPY)], Some(0)),
            Shift(1, 1, &[(3, HIT, Said::Nothing), (5, ASK, NO_COPY)], Some(1)),
        ],
        &[],
        Some((3, Cause::NotSent)),
    ),
    (
        "opened wrongly, all sent",
        TWO,
        &[Shift(1, 1, &[(1, ASK, NO_COPY), (3, ASK, NO_COPY)], Some(1))],
        &[],
        Some((3, Cause::OtherState)),
    ),
    // A record without entries has a flaw behind other flaws.
    (
        "another status at 1, no entry and a floor more",
        TWO,
        &[
            Shift(1, 0, &[(1, ASK, WRONG)], Some(0)),
            Shift(2, 0, &[(2, ASK, NO_COPY)], Some(0)),
            Shift(2, 0, &[], Some(1)),
        ],
        &[],
        Some((0, Cause::OtherState)),
    ),
    (
        "another status at 1, no entry and opened wrongly",
        TWO,
        &[
            Shift(2, 0, &[(2, ASK, NO_COPY)], Some(0)),
            Shift(1, 0, &[(1, ASK, WRONG)], Some(0)),
            Shift(2, 1, &[], Some(1)),
        ],
        &[],
        Some((0, Cause::OtherState)),
    ),
    (
        "a place twice, no entry and opened wrongly",
        TWO,
        &[
            Shift(1, 0, &[(1, ASK, NO_COPY), (1, ASK, NO_COPY)], Some(0)),
            Shift(1, 1, &[], Some(1)),
        ],
        &[],
        Some((0, Cause::OtherState)),
    ),
    (
        "another status at 1, no entry",
        TWO,
        &[
            Shift(1, 0, &[(1, ASK, WRONG)], Some(0)),
            Shift(1, 0, &[], Some(0)),
        ],
        &[],
        Some((1, Cause::OtherReply)),
    ),
    (
        "a floor more at 1, no entry and the same floor",
        TWO,
        &[
            Shift(1, 0, &[(1, ASK, NO_COPY)], Some(1)),
            Shift(1, 1, &[], Some(1)),
        ],
        &[],
        Some((1, Cause::OtherState)),
    ),
    // Two causes at place 0.
    (
        "no entry and opened wrongly, not sent at 0",
        TWO,
        &[Shift(1, 1, &[], Some(1))],
        &[(0, Called::Acknowledge(1, 2), Told::Done(1))],
        Some((0, Cause::NotSent)),
    ),
    (
        "no entry and opened wrongly, another status at 0",
        TWO,
        &[
            Shift(1, 1, &[], Some(1)),
            Shift(2, 0, &[(0, ASK, WRONG)], Some(0)),
        ],
        &[],
        Some((0, Cause::OtherReply)),
    ),
    (
        "no entry and opened wrongly, 0 twice",
        TWO,
        &[
            Shift(1, 1, &[], Some(1)),
            Shift(2, 0, &[(0, ASK, WRONG)], Some(0)),
        ],
        &[(0, Called::Issue(A), Told::Issued(1))],
        Some((0, Cause::DoublePlace)),
    ),
];
