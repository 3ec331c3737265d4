//! Runs of asks alone: places that come twice, places that fall, and what the asks are answered.
use crate::events::Called;
use crate::judged::{ASK, NO_COPY, Run, WRONG};
use crate::made::{Shift, Told};
use run_rules::Cause;
use tests_kit::TWO;

pub(crate) const PLACES: &[Run] = &[
    // One record of one node.
    (
        "two asks",
        TWO,
        &[Shift(1, 0, &[(1, ASK, NO_COPY), (2, ASK, NO_COPY)], Some(0))],
        &[],
        None,
    ),
    (
        "a place twice",
        TWO,
        &[Shift(1, 0, &[(1, ASK, NO_COPY), (1, ASK, NO_COPY)], Some(0))],
        &[],
        Some((1, Cause::DoublePlace)),
    ),
    (
        "another status",
        TWO,
        &[Shift(1, 0, &[(1, ASK, NO_COPY), (2, ASK, WRONG)], Some(0))],
        &[],
        Some((2, Cause::OtherReply)),
    ),
    (
        "a floor more",
        TWO,
        &[Shift(1, 0, &[(1, ASK, NO_COPY), (2, ASK, NO_COPY)], Some(1))],
        &[],
        Some((2, Cause::OtherState)),
    ),
    // Two nodes.
    (
        "four places of two nodes",
        TWO,
        &[
            Shift(1, 0, &[(1, ASK, NO_COPY), (3, ASK, NO_COPY)], Some(0)),
            Shift(2, 0, &[(2, ASK, NO_COPY), (4, ASK, NO_COPY)], Some(0)),
        ],
        &[],
        None,
    ),
    (
        "a place at two nodes",
        TWO,
        &[
            Shift(1, 0, &[(1, ASK, NO_COPY), (3, ASK, NO_COPY)], Some(0)),
            Shift(2, 0, &[(2, ASK, NO_COPY), (3, ASK, NO_COPY)], Some(0)),
        ],
        &[],
        Some((3, Cause::DoublePlace)),
    ),
    // A node and the master.
    (
        "four places with the master",
        TWO,
        &[Shift(1, 0, &[(1, ASK, NO_COPY), (3, ASK, NO_COPY)], Some(0))],
        &[
            (2, Called::Status(1), Told::Unknown),
            (4, Called::Status(1), Told::Unknown),
        ],
        None,
    ),
    (
        "a place at a node and the master",
        TWO,
        &[Shift(1, 0, &[(1, ASK, NO_COPY), (3, ASK, NO_COPY)], Some(0))],
        &[
            (2, Called::Status(1), Told::Unknown),
            (3, Called::Status(1), Told::Unknown),
        ],
        Some((3, Cause::DoublePlace)),
    ),
    (
        "the master's place falls",
        TWO,
        &[Shift(1, 0, &[(1, ASK, NO_COPY)], Some(0))],
        &[
            (4, Called::Status(1), Told::Unknown),
            (2, Called::Status(1), Told::Unknown),
        ],
        Some((2, Cause::DoublePlace)),
    ),
    (
        "the master's place stays",
        TWO,
        &[Shift(1, 0, &[(1, ASK, NO_COPY)], Some(0))],
        &[
            (2, Called::Status(1), Told::Unknown),
            (2, Called::Status(1), Told::Unknown),
        ],
        Some((2, Cause::DoublePlace)),
    ),
    // The node's place falls.
    (
        "a fall, and no other flaw",
        TWO,
        &[Shift(
            1,
            0,
            &[(2, ASK, NO_COPY), (4, ASK, NO_COPY), (3, ASK, NO_COPY)],
            Some(0),
        )],
        &[],
        Some((3, Cause::DoublePlace)),
    ),
    (
        "a fall, and a flaw above it",
        TWO,
        &[Shift(
            1,
            0,
            &[(2, ASK, NO_COPY), (4, ASK, WRONG), (3, ASK, NO_COPY)],
            Some(0),
        )],
        &[],
        Some((3, Cause::DoublePlace)),
    ),
    (
        "a fall, and a flaw below it",
        TWO,
        &[Shift(
            1,
            0,
            &[(2, ASK, WRONG), (4, ASK, NO_COPY), (3, ASK, NO_COPY)],
            Some(0),
        )],
        &[],
        Some((2, Cause::OtherReply)),
    ),
];
