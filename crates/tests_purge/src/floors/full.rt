//! Floors of 65,536 keys, and a raise of one key more.
use super::{floor, raise_in};
use floor_rules::Floors;
use std::alloc::Global;
use std::test::Fail;

/// How many rows there are, the base, the floors of `http://a/`, `http://b/` and `http://o/9`, and
/// the greatest floor.
type Seen = (usize, u32, [u32; 3], u32);

fn seen(floors: &Floors, alloc: Global) -> Result<Seen, Fail> {
    let a = floor(floors, alloc, "http://a/")?;
    let b = floor(floors, alloc, "http://b/")?;
    let o = floor(floors, alloc, "http://o/9")?;
    Ok((floors.rows(), floors.base(), [a, b, o], floors.seen()))
}

/// Floors of 65,536 keys, over this base: `http://o/1` has the number behind this one, `http://o/2`
/// the next, and so on.
fn full(alloc: Global, base: u32, before: u32) -> Result<Floors, Fail> {
    let mut floors = Floors::new(alloc);
    floors.raise_base(base);
    for key in 1..=65_536u32 {
        let url = format!(in alloc; "http://o/{key}")?;
        raise_in(&mut floors, alloc, url.as_str(), before.saturating_add(key))?;
    }
    Ok(floors)
}

/// A raise of a key to a number, and what is seen then.
type Raise = (&'static str, u32, Seen);

/// The numbers are 1 to 65,536: a new key makes the base. Then keys get rows above it alone.
const FIRST: [Raise; 5] = [
    ("http://o/9", 9, (65_536, 0, [0, 0, 9], 65_536)),
    ("http://c/", 70_000, (0, 70_000, [70_000; 3], 70_000)),
    (
        "http://a/",
        70_001,
        (1, 70_000, [70_001, 70_000, 70_000], 70_001),
    ),
    (
        "http://b/",
        60_000,
        (1, 70_000, [70_001, 70_000, 70_000], 70_001),
    ),
    (
        "http://b/",
        70_000,
        (1, 70_000, [70_001, 70_000, 70_000], 70_001),
    ),
];

/// The base is 70,000 and the numbers are 74,465 to 140,000: a key that has a row raises it, and a
/// new one makes the greatest of all the base.
const LATER: [Raise; 3] = [
    (
        "http://b/",
        70_000,
        (65_536, 70_000, [70_000, 70_000, 74_473], 140_000),
    ),
    (
        "http://o/9",
        75_000,
        (65_536, 70_000, [70_000, 70_000, 75_000], 140_000),
    ),
    ("http://c/", 75_000, (0, 140_000, [140_000; 3], 140_000)),
];

/// The first raise of a table after which something else is seen.
fn first_other(
    mut floors: Floors,
    alloc: Global,
    raises: &[Raise],
) -> Result<Option<(&'static str, Seen)>, Fail> {
    for (url, number, wanted) in raises {
        raise_in(&mut floors, alloc, url, *number)?;
        let found = seen(&floors, alloc)?;
        if found != *wanted {
            return Ok(Some((*url, found)));
        }
    }
    Ok(None)
}

#[test]
fn a_key_more_than_a_table_holds_makes_the_base(rt: HostRuntime) -> Result<(), Fail> {
    let alloc = rt.alloc();
    let other = first_other(full(alloc, 0, 0)?, alloc, &FIRST)?;
    assert!(rt; other.is_none(), "{other:?}");
    let other = first_other(full(alloc, 70_000, 74_464)?, alloc, &LATER)?;
    assert!(rt; other.is_none(), "{other:?}");
    Ok(())
}
