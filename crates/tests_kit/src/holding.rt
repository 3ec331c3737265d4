//! What has to hold, and what a test says where it does not.
use std::test::Fail;

/// Fails with these words where something does not hold.
pub fn want(holds: bool, what: &'static str) -> Result<(), Fail> {
    if holds { Ok(()) } else { Err(what.into()) }
}

/// The name of the first thing that does not hold.
pub fn first_wrong(things: &[(&'static str, bool)]) -> Option<&'static str> {
    for (name, holds) in things {
        if !holds {
            return Some(name);
        }
    }
    None
}
