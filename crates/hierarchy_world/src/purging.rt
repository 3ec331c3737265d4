//! What the master does: its calls, and the CLRs that they send.
ghost use Rattle.std.specs.Prelude.{◌≡◌, [], Option, Some, None, option_map, Result, Ok, IfOk};
ghost use Rattle.std.specs.Prelude.{OnOk};
ghost use Rattle.std.specs.List.{cons_option, flat_map};
ghost use Rattle.url_key.specs.Key.{IsKey};
ghost use Rattle.htcp_wire.specs.Written.{Fits};
ghost use Rattle.node_rules.specs.declared.message.Message.TheVariants as messages;
ghost use Rattle.roster.specs.Lookups.{member_of as member_by_id, member_at};
ghost use Rattle.values_plain.specs.declared.address.Udp.TheVariants as udp;
ghost use Rattle.purge_rules.specs.Members.{possible_ids};
ghost use Rattle.purge_rules.specs.Needed.{nodes_of};
ghost use Rattle.purge_rules.specs.Clear.{clear as clear_of, base_clear as base_clear_of};
ghost use Rattle.purge_rules.specs.Clear.{message_of};
ghost use Rattle.purge_rules.specs.Calls.{issue_fault, admit_fault};
ghost use Rattle.world_rules.specs.Consequence as consequences;
ghost use Rattle.hierarchy_world.specs.Parts.{IsSound, IsTaken, Adds, world_of};
ghost use Rattle.hierarchy_world.specs.Posted.{heard_by};

use crate::network::Datagram;
use crate::parts::Parts;
use crate::telling::Seen;
use htcp_wire::Htcp;
use node_rules::{Message, Sent};
use purge_master::Master;
use purge_rules::{MasterFault, MemberSet, MemoryPurges, base_clear, clear};
use roster::{Address, Roster, Udp};
use std::alloc::{AllocError, Global};
use std::mem::replace;
use url_key::Key;
use world_rules::WorldFault;

/// A CLR as a datagram from the master to a member.
fn clear_to(master: Address, receiver: Address, message: Htcp) -> Datagram
    requires { Fits message }
    ensures { result ≡ record {
      sender = master;
      receiver = receiver;
      message =
          messages.Htcp message;
    } }
{
    Datagram {
        sender: master,
        receiver,
        message: Sent::new(Message::Htcp(message)),
    }
}

/// The HTCP address of the member with this id, if there is one.
fn htcp_of(roster: &Roster, id: u8) -> Option<Address>
    ensures { result ≡ option_map (λ m. m.cache.htcp) (member_by_id roster.now id) }
{
    match roster.member(id) {
        Some(member) => Some(member.cache.htcp),
        None => None,
    }
}

/// The CLR of a new purge to the member with this id, if there is one.
fn new_clear(
    alloc: Global,
    roster: &Roster,
    id: u8,
    number: u32,
    key: &Key,
) -> Result<Option<Datagram>, AllocError>
    ensures { IfOk result (λ made.
        consequences.clear_to roster.now (Some (clear_of number key.now))
        (member_by_id roster.now id)
        ≡ cons_option made []) }
{
    match htcp_of(roster, id) {
        Some(address) => {
            let message = clear(alloc, number, key)?;
            Ok(Some(clear_to(roster.master(), address, message)))
        }
        None => Ok(None),
    }
}

/// The CLR of a new purge to the member with this id, if there is one and the purge needs it.
fn needed_clear(
    alloc: Global,
    roster: &Roster,
    needed: MemberSet,
    id: u8,
    number: u32,
    key: &Key,
) -> Result<Option<Datagram>, AllocError>
    ensures { IfOk result (λ made.
        consequences.clear_if roster.now needed number key.now id ≡ cons_option made []) }
{
    if needed.has(id) {
        new_clear(alloc, roster, id, number, key)
    } else {
        Ok(None)
    }
}

/// The CLRs of a new purge: one to each member that it needs, in order of ids.
fn new_clears(
    alloc: Global,
    roster: &Roster,
    needed: MemberSet,
    number: u32,
    key: &Key,
) -> Result<Vec<Datagram>, AllocError>
    ensures { IfOk result (λ made. made.items
        ≡ flat_map (consequences.clear_if roster.now needed number key.now) possible_ids) }
{
    let ids = [1u8, 2, 3, 4, 5, 6, 7, 8, 9, 10, 11, 12, 13, 14, 15, 16];
    let mut made = Vec::with_capacity(alloc, ids.len())?;
    for id in &ids {
        if let Some(datagram) = needed_clear(alloc, roster, needed, *id, number, key)? {
            made.push(datagram)?;
        }
    }
    Ok(made)
}

/// The CLR of an admission to the member with this id, if there is one.
fn new_base_clear(
    alloc: Global,
    roster: &Roster,
    id: u8,
    number: u32,
) -> Result<Option<Datagram>, AllocError>
    ensures { IfOk result (λ made.
        consequences.clear_to roster.now (Some (base_clear_of number)) (member_by_id roster.now id)
        ≡ cons_option made []) }
{
    match htcp_of(roster, id) {
        Some(address) => {
            let message = base_clear(alloc, number)?;
            Ok(Some(clear_to(roster.master(), address, message)))
        }
        None => Ok(None),
    }
}

/// The CLR of a pending number to the member with this id, if there are both.
fn due_clear(
    roster: &Roster,
    master: &Master<MemoryPurges>,
    number: u32,
    id: u8,
) -> Result<Option<Datagram>, AllocError>
    ensures { IfOk result (λ made.
        consequences.clear_to roster.now (message_of master.now.state.purges number)
        (member_by_id roster.now id) ≡ cons_option made []) }
{
    match (master.message(number)?, htcp_of(roster, id)) {
        (Some(message), Some(address)) => { Ok(Some(clear_to(roster.master(), address, message))) }
        _ => Ok(None),
    }
}

/// The CLRs for these pairs of a pending number and a member's id.
fn due_clears(
    alloc: Global,
    roster: &Roster,
    master: &Master<MemoryPurges>,
    due: &[(u32, u8)],
) -> Result<Vec<Datagram>, AllocError>
    ensures { IfOk result (λ made.
        made.items ≡ flat_map (λ d. consequences.clear_to roster.now
        (message_of master.now.state.purges d.0) (member_by_id roster.now d.1)) due.now) }
{
    let mut made = Vec::with_capacity(alloc, due.len())?;
    for pair in due {
        if let Some(datagram) = due_clear(roster, master, pair.0, pair.1)? {
            made.push(datagram)?;
        }
    }
    Ok(made)
}

impl Parts {
    /// Sends the CLR of a new purge to each member that it needs, in order of ids.
    fn send_clears(&mut self, number: u32, key: &Key) -> Result<(), AllocError>
        requires { self.old.master.nodes ≡ nodes_of self.old.roster }
        ensures { OnOk result (Adds self.old self.new
            (consequences.clears_of self.old.roster self.old.master.state.purges.admissions number
            key.now) [] [] []) }
    {
        let needed = self.master.purges().needed(self.master.nodes(), number);
        let mut made = new_clears(self.alloc, &self.roster, needed, number, key)?;
        self.datagrams.append(&mut made)
    }

    /// Sends the CLR of an admission to the member with this id, if there is one.
    fn send_base_clear(&mut self, id: u8, number: u32) -> Result<(), AllocError>
        ensures { OnOk result (Adds self.old self.new
            (consequences.clear_to self.old.roster (Some (base_clear_of number))
            (member_by_id self.old.roster id)) [] [] []) }
    {
        if let Some(datagram) = new_base_clear(self.alloc, &self.roster, id, number)? {
            self.datagrams.push(datagram)?;
        }
        Ok(())
    }

    /// The master issues a purge and sends its CLRs, or refuses.
    pub(crate) fn issue(&mut self, key: &Key) -> Result<Seen, WorldFault>
        requires { IsSound self.old }
        ensures taken { IsTaken self.old
            (consequences.issue_by self.old.roster (world_of self.old) key.now
            (issue_fault self.old.master.state.purges)) result self.new }
        ensures key { IsKey key.now }
    {
        let _text = key.text();
        match self.master.issue(key) {
            Ok(number) => {
                self.send_clears(number, key)?;
                Ok(Seen::Issued(number))
            }
            Err(fault) => match fault {
                MasterFault::NumbersSpent | MasterFault::TooManyPending => {
                    Ok(Seen::NotIssued(fault))
                }
                _ => Err(WorldFault::NoMemory),
            },
        }
    }

    /// The master admits a member and sends its CLR, or refuses.
    pub(crate) fn admit(&mut self, id: u8) -> Result<Seen, WorldFault>
        requires { IsSound self.old }
        ensures { IsTaken self.old (consequences.admit_by self.old.roster (world_of self.old) id
            (admit_fault (nodes_of self.old.roster) self.old.master.state.purges id))
            result self.new }
    {
        match self.master.admit(id) {
            Ok(number) => {
                self.send_base_clear(id, number)?;
                Ok(Seen::Admitted(number))
            }
            Err(fault) => match fault {
                MasterFault::NotJoining | MasterFault::NumbersSpent | MasterFault::TooManyPending =>
                    Ok(Seen::NotAdmitted(fault)),
                _ => Err(WorldFault::NoMemory),
            },
        }
    }

    /// The master sends each pending number again to each member that the number needs and that has
    /// not acknowledged it.
    pub(crate) fn resend(&mut self) -> Result<Seen, WorldFault>
        requires { IsSound self.old }
        ensures { IsTaken self.old (consequences.Ends consequences.Nothing
            (consequences.with_sent (world_of self.old)
            (consequences.clears_due self.old.roster self.old.master.state.purges)))
            result self.new }
    {
        let Ok(due) = self.master.due() else {
            return Err(WorldFault::NoMemory);
        };
        let mut made = due_clears(self.alloc, &self.roster, &self.master, due.as_slice())?;
        self.datagrams.append(&mut made)?;
        Ok(Seen::Nothing)
    }

    /// The master reports the status of a number.
    pub(crate) fn status(&self, number: u32) -> Seen
        requires { IsSound self.now }
        ensures { IsTaken self.now (consequences.reports self.now.roster (world_of self.now) number)
            (Ok result) self.now }
    {
        Seen::Reported(number, self.master.status(number))
    }

    /// The master counts a member's response to the CLR with this number, with this response code,
    /// and reports the status of that number.
    fn acknowledge(&mut self, id: u8, number: u32, code: u8) -> Result<Seen, WorldFault>
        requires { IsSound self.old }
        ensures { IsTaken self.old (consequences.acknowledged_by self.old.roster
            (world_of self.old) number code (Some id)) result self.new }
    {
        match self.master.acknowledge(id, number, code) {
            Ok(_) => Ok(self.status(number)),
            Err(_) => Err(WorldFault::NoMemory),
        }
    }

    /// A datagram reaches the master. `answer` is the TRANS-ID and the code if it is a response to
    /// a CLR; anything else changes nothing.
    pub(crate) fn master_hears(
        &mut self,
        sender: Address,
        answer: Option<(u32, u8)>,
    ) -> Result<Seen, WorldFault>
        requires { IsSound self.old }
        ensures { IsTaken self.old (heard_by self.old.roster (world_of self.old) sender answer)
            result self.new }
    {
        let Some((number, code)) = answer else {
            return Ok(Seen::Nothing);
        };
        match self.roster.member_at(sender, Udp::Htcp) {
            Some(id) => self.acknowledge(id, number, code),
            None => Ok(Seen::Nothing),
        }
    }

    /// The master restarts, with the purges that its store kept.
    pub(crate) fn restart_master(&mut self) -> Result<Seen, WorldFault>
        requires { IsSound self.old }
        ensures { IsTaken self.old (consequences.Ends consequences.Nothing (world_of self.old))
            result self.new }
    {
        let alloc = self.alloc;
        let Ok(none) = Master::open(alloc, &self.roster, MemoryPurges::new(alloc)) else {
            return Err(WorldFault::NoMemory);
        };
        let store = replace(&mut self.master, none).into_store();
        let Ok(master) = Master::open(alloc, &self.roster, store) else {
            return Err(WorldFault::NoMemory);
        };
        self.master = master;
        Ok(Seen::Nothing)
    }
}
