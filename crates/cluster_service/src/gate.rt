//! What is called before an origin is read.
use std::sync::Wait;
use std::time::Clock;

/// Is told of each read of an origin before it begins, and may delay it.
pub trait Gate {
    /// Is called before an origin is read for the fetch with this serial, while no lock is held.
    fn before_read<R: Wait + Clock>(&self, rt: &R, serial: u32);
}

/// Delays nothing.
#[derive(Clone, Copy, Debug, PartialEq, Eq)]
pub struct NoGate;

impl Gate for NoGate {
    fn before_read<R: Wait + Clock>(&self, _rt: &R, _serial: u32) {}
}
