//! A world whose one member has floors of 65,536 keys, as a key more is purged.
use hierarchy_world::World;
use node_rules::{Serve, Served};
use purge_rules::Status;
use std::alloc::Global;
use std::test::Fail;
use tests_kit::{ONE, answer_of, ask_of, key_of, roster_of, want};
use world_rules::{Outcome, WorldEvent};

/// Purges a URL, where so many were purged before: its CLR comes to the member, and the response to
/// that to the master.
fn purge(alloc: Global, world: &mut World, url: &str, before: u64) -> Result<(), Fail> {
    let sent = before.saturating_mul(2);
    let key = key_of(alloc, url.as_bytes())?;
    let _issued = world.apply(WorldEvent::Issue { key })?;
    let clear = sent.saturating_add(1);
    let _cleared = world.apply(WorldEvent::Datagram { number: clear })?;
    let response = clear.saturating_add(1);
    let outcome = world.apply(WorldEvent::Datagram { number: response })?;
    want(
        matches!(outcome.status, Some((_, Status::Done))),
        "a purge that is done",
    )
}

/// Purges 65,536 URLs, `http://o/1` and so on, under the numbers 1 to 65,536.
fn fill(alloc: Global, world: &mut World) -> Result<(), Fail> {
    for key in 1..=65_536u64 {
        let url = format!(in alloc; "http://o/{key}")?;
        purge(alloc, world, url.as_str(), key.wrapping_sub(1))?;
    }
    Ok(())
}

/// The stamp of the copy that is served, if one is.
fn stamp_of(serve: &Option<Serve<u64>>) -> Option<u32> {
    match serve {
        Some(serve) => match &serve.served {
            Served::Copy { copy, .. } => Some(copy.stamp),
            Served::Status(_) => None,
        },
        None => None,
    }
}

/// The read that an outcome begins, and the stamp of the copy that it serves.
fn told_of(outcome: &Outcome) -> (Option<u32>, Option<u32>) {
    (outcome.read, stamp_of(&outcome.serve))
}

/// A client asks for `http://o/a`.
fn ask(alloc: Global, world: &mut World) -> Result<(Option<u32>, Option<u32>), Fail> {
    let ask = ask_of(alloc, b"http://o/a", false, None)?;
    Ok(told_of(&world.apply(WorldEvent::Client { node: 1, ask })?))
}

/// The same, and then the origin answers the read of this serial: the stamp that it is served with.
fn read(alloc: Global, world: &mut World, serial: u32) -> Result<Option<u32>, Fail> {
    want(ask(alloc, world)? == (Some(serial), None), "a read")?;
    let answer = answer_of(alloc, None)?;
    let event = WorldEvent::Origin {
        node: 1,
        serial,
        answer,
    };
    Ok(stamp_of(&world.apply(event)?.serve))
}

/// What goes otherwise as the 65,537th purge makes the base, and the member restarts with it.
fn flaw(alloc: Global, world: &mut World) -> Result<Option<&'static str>, Fail> {
    fill(alloc, world)?;
    if read(alloc, world, 33)? != Some(65_536) || ask(alloc, world)? != (None, Some(65_536)) {
        return Ok(Some("a copy before the purge"));
    }
    purge(alloc, world, "http://o/x", 65_536)?;
    if read(alloc, world, 65)? != Some(65_537) || ask(alloc, world)? != (None, Some(65_537)) {
        return Ok(Some("a copy of another key after the purge"));
    }
    let _restarted = world.apply(WorldEvent::Restart { node: 1 })?;
    if read(alloc, world, 33)? != Some(65_537) {
        return Ok(Some("a copy after the restart"));
    }
    Ok(None)
}

/// The same in a new world.
fn flaw_in(alloc: Global) -> Result<Option<&'static str>, Fail> {
    let roster = roster_of(alloc, ONE)?;
    let mut world = World::new(alloc, &roster)?;
    flaw(alloc, &mut world)
}

#[test]
fn a_restart_opens_with_the_base(rt: HostRuntime) -> Result<(), Fail> {
    assert_eq!(rt; flaw_in(rt.alloc())?, None);
    Ok(())
}
