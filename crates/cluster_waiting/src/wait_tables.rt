//! The tables that the threads of a node share, each under its lock.
use crate::clients::WaitingClients;
use crate::fault::HandedBack;
use crate::outstanding::Outstanding;
use crate::owed::{OwedStep, OwedSteps};
use crate::rounds::Rounds;
use std::alloc::{AllocError, Global};
use std::sync::{Mutex, Wait};

/// Who may be kept among the waiting clients.
pub trait Waits {
    /// Whether it still waits. One that was told meanwhile that it waits no more is kept until the
    /// answer to its request comes, which nobody gets then.
    fn is_waiting(&self) -> bool;

    /// Whether it still waits, and has not gone away. It must not wait for a socket.
    fn is_there(&self) -> bool;
}

/// The waiting clients with the early answers, the waiting rounds, the peers that each round waits
/// for, the deadlines of requests, and the steps that are owed, each under a lock of its own. No
/// function holds two locks at once.
pub struct WaitTables<C: Drop, A: Drop> {
    clients: Mutex<WaitingClients<C, A>>,
    rounds: Mutex<Rounds>,
    outstanding: Mutex<Outstanding>,
    asks: Mutex<Rounds>,
    owed: Mutex<OwedSteps>,
}

impl<C: Drop, A: Drop> Drop for WaitTables<C, A> {
    fn drop(self) {
        let WaitTables {
            clients: _,
            rounds: _,
            outstanding: _,
            asks: _,
            owed: _,
        } = self;
    }
}

impl<C: Drop, A: Drop> WaitTables<C, A> {
    /// Empty tables. `AllocError` comes where there is no memory for 1,024 steps that are owed.
    pub fn new(alloc: Global) -> Result<WaitTables<C, A>, AllocError> {
        let owed = OwedSteps::new(alloc)?;
        Ok(WaitTables {
            clients: Mutex::new(WaitingClients::new(alloc)),
            rounds: Mutex::new(Rounds::new(alloc)),
            outstanding: Mutex::new(Outstanding::new(alloc)),
            asks: Mutex::new(Rounds::new(alloc)),
            owed: Mutex::new(owed),
        })
    }

    /// [`WaitingClients::clients`] under the lock.
    pub fn clients<R: Wait>(&self, rt: &R) -> usize {
        self.clients.lock(rt).clients()
    }

    /// [`WaitingClients::leave`] under the lock.
    pub fn leave<R: Wait>(
        &self,
        rt: &R,
        block: u32,
        client: C,
    ) -> Result<Option<(C, A)>, HandedBack<C>> {
        self.clients.lock(rt).leave(block, client)
    }

    /// [`WaitingClients::answer`] under the lock.
    pub fn answer<R: Wait>(
        &self,
        rt: &R,
        block: u32,
        answer: A,
    ) -> Result<Option<(C, A)>, HandedBack<A>> {
        self.clients.lock(rt).answer(block, answer)
    }

    /// [`WaitingClients::take_first`] under the lock.
    pub fn take_first<R: Wait>(&self, rt: &R) -> Option<C> {
        self.clients.lock(rt).take_first()
    }

    /// [`WaitingClients::take`] under the lock.
    pub fn take<R: Wait>(&self, rt: &R, block: u32) -> Option<C> {
        self.clients.lock(rt).take(block)
    }

    /// Whether a client under this block still waits.
    pub fn is_awaited<R: Wait>(&self, rt: &R, block: u32) -> bool
    where
        C: Waits,
    {
        match self.clients.lock(rt).get(block) {
            Some(client) => client.is_waiting(),
            None => false,
        }
    }

    /// Whether a client under this block still waits, and has not gone away.
    pub fn is_there<R: Wait>(&self, rt: &R, block: u32) -> bool
    where
        C: Waits,
    {
        match self.clients.lock(rt).get(block) {
            Some(client) => client.is_there(),
            None => false,
        }
    }

    /// Has the request of a block wait until this moment, in milliseconds: [`Rounds::begin`] under
    /// the lock of the deadlines.
    pub fn begin_ask<R: Wait>(&self, rt: &R, until: u64, block: u32) -> Result<(), AllocError> {
        self.asks.lock(rt).begin(until, block)
    }

    /// The block of the first request whose deadline has come at this moment: [`Rounds::due`] under
    /// the lock of the deadlines.
    pub fn due_ask<R: Wait>(&self, rt: &R, now: u64) -> Option<u32> {
        self.asks.lock(rt).due(now)
    }

    /// Takes out the deadline of the request of a block: [`Rounds::end`] under the lock of the
    /// deadlines.
    pub fn end_ask<R: Wait>(&self, rt: &R, block: u32) {
        self.asks.lock(rt).end(block);
    }

    /// Notes which peers a round waits for: [`Outstanding::begin`] under the lock. To be called
    /// before they are asked, so that no answer comes earlier.
    pub fn ask<R: Wait>(&self, rt: &R, serial: u32, peers: u32) -> Result<(), AllocError> {
        self.outstanding.lock(rt).begin(serial, peers)
    }

    /// Notes that only these peers may still answer to a round, if it waits for them. Returns
    /// whether it waits, and for none of them: [`Outstanding::heard`] under the lock.
    pub fn heard<R: Wait>(&self, rt: &R, serial: u32, others: u32) -> bool {
        self.outstanding.lock(rt).heard(serial, others)
    }

    /// Whether a round waits, and for no peer.
    pub fn waits_for_none<R: Wait>(&self, rt: &R, serial: u32) -> bool {
        self.heard(rt, serial, u32::MAX)
    }

    /// Ends a round: its deadline is taken out, and it waits for no peer.
    pub fn end<R: Wait>(&self, rt: &R, serial: u32) {
        self.outstanding.lock(rt).end(serial);
        self.rounds.lock(rt).end(serial);
    }

    /// [`Rounds::begin`] under the lock.
    pub fn begin<R: Wait>(&self, rt: &R, until: u64, serial: u32) -> Result<(), AllocError> {
        self.rounds.lock(rt).begin(until, serial)
    }

    /// [`Rounds::due`] under the lock.
    pub fn due<R: Wait>(&self, rt: &R, now: u64) -> Option<u32> {
        self.rounds.lock(rt).due(now)
    }

    /// The peers that a round still waits for: [`Outstanding::end`] under the lock.
    pub fn left<R: Wait>(&self, rt: &R, serial: u32) -> u32 {
        self.outstanding.lock(rt).end(serial).unwrap_or(0)
    }

    /// [`OwedSteps::note`] under the lock.
    pub fn note_owed<R: Wait>(&self, rt: &R, step: OwedStep) {
        self.owed.lock(rt).note(step);
    }

    /// [`OwedSteps::take`] under the lock.
    pub fn take_owed<R: Wait>(&self, rt: &R) -> Option<OwedStep> {
        self.owed.lock(rt).take()
    }
}
