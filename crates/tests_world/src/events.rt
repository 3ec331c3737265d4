//! The names of faults that no script shows.
use std::alloc::AllocError;
use std::test::Fail;
use world_rules::WorldFault;

const NAMES: &[(WorldFault, &str)] = &[
    (WorldFault::NoMemory, "NoMemory"),
    (WorldFault::PlacesSpent, "PlacesSpent"),
];

#[test]
fn names_faults(rt: HostRuntime) -> Result<(), Fail> {
    for (fault, name) in NAMES {
        assert_eq!(rt; fault.name(), *name);
    }
    assert!(rt; WorldFault::from(AllocError) == WorldFault::NoMemory);
    Ok(())
}
