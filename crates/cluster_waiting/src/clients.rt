//! Clients that wait for their answers, and answers that came before their clients.
ghost use Rattle.std.specs.Prelude.{◌≡◌, ◌≤◌, [], length, option_map, MatchOption, MatchResult};
ghost use Rattle.cluster_waiting.specs.Waiting.{Answers, IsPut, IsHandedBack, Leaves, TakesClient};
ghost use Rattle.cluster_waiting.specs.Waiting.{found_at, without};

use crate::fault::{HandedBack, TableFault};
use std::alloc::Global;
use std::collections::BTreeMap;
use std::marker::Model;

/// How many clients, and how many answers, are kept at most. A node has 1,024 pending requests at
/// most, and each of its threads (9 at most) may hold one more whose request has just ended.
pub const MOST_WAITING: usize = 1056;

/// Clients that wait for their answers, and answers that came before their clients, each under the
/// block of serials of its request.
///
/// A contract sees both in the order of their blocks, at most 1,056 of each.
pub struct WaitingClients<C, A> {
    clients: BTreeMap<u32, C>,
    answers: BTreeMap<u32, A>,
}

impl<C: Drop, A: Drop> Drop for WaitingClients<C, A> {
    fn drop(self) {
        let WaitingClients {
            clients: _,
            answers: _,
        } = self;
    }
}

impl<C, A> Model for WaitingClients<C, A> {
    ghost use Rattle.std.specs.Prelude.{◌≤◌, length};
    ghost use Rattle.cluster_waiting.specs.Waiting.{WaitingClientsView};

    ghost Value = { WaitingClientsView C A };

    ghost view = { λ w. record { clients = w.clients.entries; answers = w.answers.entries } };

    ghost invariant = { λ w. (length w.clients.entries ≤ 1056)
        × (length w.answers.entries ≤ 1056) };
}

impl<C: Drop, A: Drop> WaitingClients<C, A> {
    /// Nobody waits. It takes no memory.
    pub fn new(alloc: Global) -> WaitingClients<C, A>
        ensures clients { result.clients ≡ [] }
        ensures answers { result.answers ≡ [] }
    {
        WaitingClients {
            clients: BTreeMap::new(alloc),
            answers: BTreeMap::new(alloc),
        }
    }

    /// How many clients wait.
    pub fn clients(&self) -> usize
        ensures { result ≡ length self.now.clients }
    {
        self.clients.len()
    }

    /// Leaves a client under the block of its request; where the answer has come already, gives
    /// back both. Else the client is handed back with the first of these faults that holds, and
    /// nothing changes: `Taken` where a client waits under this block, `Full` where 1,056 wait,
    /// `NoMemory`.
    pub fn leave(&mut self, block: u32, client: C) -> Result<Option<(C, A)>, HandedBack<C>>
        ensures { Leaves block client self.old result self.new }
    {
        if let Some(answer) = self.answers.remove(&block) {
            return Ok(Some((client, answer)));
        }
        match put(&mut self.clients, block, client) {
            Ok(()) => Ok(None),
            Err(handed_back) => Err(handed_back),
        }
    }

    /// Leaves an answer under the block of its request; where the client waits already, gives back
    /// both. Else the answer is handed back with the first of these faults that holds, and nothing
    /// changes: `Taken` where an answer is kept under this block, `Full` where 1,056 are kept,
    /// `NoMemory`.
    pub fn answer(&mut self, block: u32, answer: A) -> Result<Option<(C, A)>, HandedBack<A>>
        ensures { Answers block answer self.old result self.new }
    {
        if let Some(client) = self.clients.remove(&block) {
            return Ok(Some((client, answer)));
        }
        match put(&mut self.answers, block, answer) {
            Ok(()) => Ok(None),
            Err(handed_back) => Err(handed_back),
        }
    }

    /// Takes out the client that waits under a block, if one does.
    pub fn take(&mut self, block: u32) -> Option<C>
        ensures client { result ≡ found_at self.old.clients block }
        ensures others { self.new.clients ≡ without self.old.clients block }
        ensures answers { self.new.answers ≡ self.old.answers }
    {
        self.clients.remove(&block)
    }

    /// The client that waits under a block, if one does.
    pub fn get(&self, block: u32) -> Option<&C>
        ensures { option_map (λ c. c.now) result ≡ found_at self.now.clients block }
    {
        self.clients.get(&block)
    }

    /// Takes out the waiting client with the least block, if a client waits.
    pub fn take_first(&mut self) -> Option<C>
        ensures { MatchOption result ((self.old.clients ≡ [])
            × (self.new ≡ self.old)) (TakesClient self.old self.new) }
    {
        match self.clients.pop_first() {
            Some((_, client)) => Some(client),
            None => None,
        }
    }
}

/// Puts one item under a block that has none.
fn put<T: Drop>(row: &mut BTreeMap<u32, T>, block: u32, one: T) -> Result<(), HandedBack<T>>
    ensures put { MatchResult result (λ _.
        IsPut row.old.entries block one row.new.entries)
        (IsHandedBack row.old.entries block one row.new.entries) }
    ensures most { length row.old.entries ≤ 1056 → length row.new.entries ≤ 1056 }
{
    if row.contains_key(&block) {
        return Err(HandedBack {
            back: one,
            fault: TableFault::Taken,
        });
    }
    if row.len() >= MOST_WAITING {
        return Err(HandedBack {
            back: one,
            fault: TableFault::Full,
        });
    }
    match row.insert(block, one) {
        Ok(_) => Ok(()),
        Err(failed) => Err(HandedBack {
            back: failed.value.1,
            fault: TableFault::NoMemory,
        }),
    }
}
