//! A node over a store of floors that fails.
use crate::failing::FailingFloors;
use crate::setting::{Cleared, TWO, cleared_by, purge};
use floor_rules::{FloorStore, Floors};
use node_core::Node;
use node_rules::{Begin, Event, Reply, Served, StepFault};
use roster::Roster;
use std::alloc::Global;
use std::fmt::Write;
use std::test::Fail;
use tests_kit::{ask_of, key_of, roster_of};

/// A node that is let go as a whole.
#[derive(Drop)]
struct Held<S: FloorStore + Drop> {
    node: Node<(), S>,
}

fn over<S: FloorStore + Drop>(alloc: Global, roster: Roster, store: S) -> Result<Held<S>, Fail> {
    match Node::open(alloc, roster, 1, store) {
        Ok(node) => Ok(Held { node }),
        Err(fault) => Err(fault.name().into()),
    }
}

/// Node 1, over this store.
fn opened<S: FloorStore + Drop>(alloc: Global, store: S) -> Result<Held<S>, Fail> {
    over(alloc, roster_of(alloc, TWO)?, store)
}

fn client(alloc: Global, url: &str) -> Result<Event<()>, Fail> {
    let ask = ask_of(alloc, url.as_bytes(), false, None)?;
    Ok(Event::Client { ask, now: 0 })
}

/// What the master's CLR of a URL under this number is answered.
fn cleared<S: FloorStore>(
    alloc: Global,
    node: &mut Node<(), S>,
    url: &str,
    number: u32,
) -> Result<Result<Cleared, StepFault>, Fail> {
    Ok(match node.step(purge(alloc, url, number)?, ()) {
        Ok(reply) => Ok(cleared_by(&reply)),
        Err(fault) => Err(fault),
    })
}

/// Whether a step begins the read of this serial.
fn begins_read<S: FloorStore>(node: &mut Node<(), S>, event: Event<()>, wanted: u32) -> bool {
    match node.step(event, ()) {
        Ok(reply) => is_read(&reply, wanted),
        Err(_) => false,
    }
}

fn is_read(reply: &Reply<()>, wanted: u32) -> bool {
    matches!(&reply.begin, Some(Begin::Read { serial, .. }) if *serial == wanted)
}

/// Whether a step is refused since the node is closed.
fn is_refused<S: FloorStore>(node: &mut Node<(), S>, event: Event<()>) -> bool {
    matches!(node.step(event, ()), Err(StepFault::Closed))
}

/// What is wrong with a node whose store fails at its first raise: it is closed from then on.
fn flaw<S: FloorStore>(
    alloc: Global,
    node: &mut Node<(), S>,
) -> Result<Option<&'static str>, Fail> {
    if !begins_read(node, client(alloc, "http://o/a")?, 33) || node.is_closed() {
        return Ok(Some("a read"));
    }
    let fault = cleared(alloc, node, "http://o/a", 1)?;
    if fault != Err(StepFault::StoreFault) || !node.is_closed() {
        return Ok(Some("a fault of the store"));
    }
    if cleared(alloc, node, "http://o/a", 1)? != Err(StepFault::Closed) {
        return Ok(Some("a purge when closed"));
    }
    if !is_refused(node, client(alloc, "http://o/a")?) {
        return Ok(Some("an ask when closed"));
    }
    if !is_refused(node, Event::FetchFailed { serial: 33, now: 0 }) {
        return Ok(Some("a fetch when closed"));
    }
    Ok(None)
}

/// A client's request that no copy may answer (RFC 9111, section 5.2.1.4).
fn no_cache(alloc: Global, url: &str) -> Result<Event<()>, Fail> {
    let mut ask = ask_of(alloc, url.as_bytes(), false, None)?;
    ask.no_cache = true;
    Ok(Event::Client { ask, now: 0 })
}

/// Whether a step serves 502, and begins nothing.
fn serves_502<S: FloorStore>(node: &mut Node<(), S>, event: Event<()>) -> bool {
    match node.step(event, ()) {
        Ok(reply) => reply.begin.is_none() && is_502(&reply),
        Err(_) => false,
    }
}

fn is_502(reply: &Reply<()>) -> bool {
    match &reply.serve {
        Some(serve) => matches!(serve.served, Served::Status(502)),
        None => false,
    }
}

#[test]
fn a_request_that_gets_502_at_once_takes_a_block(rt: HostRuntime) -> Result<(), Fail> {
    let alloc = rt.alloc();
    let mut held = opened(alloc, FailingFloors::new(alloc, 0))?;
    assert!(rt; begins_read(&mut held.node, client(alloc, "http://o/a")?, 33));
    assert!(rt; serves_502(&mut held.node, no_cache(alloc, "http://p/")?));
    assert!(rt; begins_read(&mut held.node, no_cache(alloc, "http://o/b")?, 97));
    Ok(())
}

fn failures_of(held: Held<FailingFloors>) -> u64 {
    held.node.into_floors().failures()
}

#[test]
fn a_fault_of_the_store_closes_a_node(rt: HostRuntime) -> Result<(), Fail> {
    let alloc = rt.alloc();
    let mut held = opened(alloc, FailingFloors::new(alloc, 0))?;
    assert_eq!(rt; flaw(alloc, &mut held.node)?, None);
    assert_eq!(rt; failures_of(held), 1);
    Ok(())
}

/// Whether a purge under this number is answered with code 2.
fn is_cleared<S: FloorStore>(
    alloc: Global,
    node: &mut Node<(), S>,
    number: u32,
) -> Result<bool, Fail> {
    Ok(cleared(alloc, node, "http://o/a", number)? == Ok(Cleared::Code(2)))
}

/// Whether a purge of another URL meets a fault of the store, which closes the node.
fn is_closed_by_fault<S: FloorStore>(
    alloc: Global,
    node: &mut Node<(), S>,
    number: u32,
) -> Result<bool, Fail> {
    let fault = cleared(alloc, node, "http://o/b", number)?;
    Ok(fault == Err(StepFault::StoreFault) && node.is_closed())
}

#[test]
fn a_later_fault_of_the_store_keeps_what_was_answered(rt: HostRuntime) -> Result<(), Fail> {
    let alloc = rt.alloc();
    let mut held = opened(alloc, FailingFloors::new(alloc, 2))?;
    assert!(rt; is_cleared(alloc, &mut held.node, 1)?);
    assert!(rt; is_cleared(alloc, &mut held.node, 2)?);
    assert!(rt; is_closed_by_fault(alloc, &mut held.node, 3)?);
    Ok(())
}

/// Floors of as many keys as a table has rows at most.
fn full(alloc: Global) -> Result<Floors, Fail> {
    let mut floors = Floors::new(alloc);
    for number in 1..=65_536u32 {
        let url = format!(in alloc; "http://o/{number}")?;
        floors.raise(alloc, &key_of(alloc, url.as_bytes())?, number)?;
    }
    Ok(floors)
}

fn rows_and_base_of(held: Held<FailingFloors>) -> (usize, u32) {
    held.node.into_floors().rows_and_base()
}

#[test]
fn a_store_that_fails_as_the_base_is_made_closes_the_node(rt: HostRuntime) -> Result<(), Fail> {
    let alloc = rt.alloc();
    let mut held = opened(alloc, FailingFloors::over(full(alloc)?, 0))?;
    assert!(rt; is_closed_by_fault(alloc, &mut held.node, 70_000)?);
    assert!(rt; is_refused(&mut held.node, client(alloc, "http://o/a")?));
    assert_eq!(rt; rows_and_base_of(held), (65_536, 0));
    Ok(())
}
