//! How the members are told of purges and admissions.
ghost use Rattle.std.specs.Prelude.{◌≡◌, ◌≢◌, IfErr, IfSome};
ghost use Rattle.purge_rules.specs.declared.fault.MasterFault.TheVariants as faults;
ghost use Rattle.cluster_master.specs.Answers.{AreClearOf, htcp_of as htcp_of_member};

use crate::schedule::Schedule;
use crate::shared::SharedMaster;
use mio::Waker;
use mio::net::UdpSocket;
use purge_rules::{MasterAnswer, MasterCall, MasterFault, MemberSet, PurgeStore};
use roster::{Address, LAST_MEMBER, Roster};
use std::alloc::{AllocError, Global};
use std::io;
use std::sync::{Arc, Mutex, Wait};
use std::time::Clock;
use url_key::Key;

/// How many CLRs are sent again at once at most, beside those of the last number among them.
const MOST_AGAIN: u32 = 256;

/// How many purges that no member misses are sent at once at most.
const MOST_SETTLED: usize = 64;

/// Where CLRs are sent to the member of an id: its HTCP address.
fn htcp_of(roster: &Roster, id: u8) -> Option<Address>
    ensures { result ≡ htcp_of_member roster.now id }
{
    match roster.member(id) {
        Some(member) => Some(member.cache.htcp),
        None => None,
    }
}

/// The octets of the CLR of a pending number. None where it is no longer pending, or where there is
/// no memory.
fn clear_of<S: PurgeStore, R: Wait>(
    rt: &R,
    alloc: Global,
    master: &SharedMaster<S>,
    number: u32,
) -> Option<Vec<u8>>
    ensures { IfSome result (λ octets. AreClearOf number octets.items) }
{
    match master.message(rt, number) {
        Ok(Some(message)) => htcp_wire::encode(alloc, &message).ok(),
        _ => None,
    }
}

/// The moment, in milliseconds of a clock that never goes back. The error is the clock's.
pub(crate) fn moment<C: Clock>(clock: &C) -> io::Result<u64> {
    let since = clock.monotonic()?;
    Ok(u64::try_from(since.as_millis()).unwrap_or(u64::MAX))
}

/// What the master's loop and its senders share.
pub(crate) struct MasterShared {
    /// The master's socket.
    pub(crate) socket: UdpSocket,
    /// What ends a poll of the loop.
    pub(crate) waker: Waker,
    /// When CLRs are sent again.
    pub(crate) schedule: Mutex<Schedule>,
}

impl Drop for MasterShared {
    fn drop(self) {
        let MasterShared {
            socket: _,
            waker: _,
            schedule: _,
        } = self;
    }
}

/// Issues purges, admits members, and sends their CLRs on the master's socket, from any thread.
#[derive(Drop)]
pub struct MasterSender {
    alloc: Global,
    shared: Arc<MasterShared, Global>,
}

impl MasterSender {
    /// A sender that shares this with its loop.
    pub(crate) fn of(alloc: Global, shared: Arc<MasterShared, Global>) -> MasterSender {
        MasterSender { alloc, shared }
    }

    /// The socket that it sends on.
    pub(crate) fn socket(&self) -> &UdpSocket {
        &self.shared.socket
    }

    /// The moment at which something is to be sent again, or the master to be asked.
    pub(crate) fn earliest<R: Wait>(&self, rt: &R) -> u64 {
        self.shared.schedule.lock(rt).earliest()
    }

    /// The same sender for another thread. `AllocError` comes where one more owner cannot be
    /// counted.
    pub fn try_clone(&self) -> Result<MasterSender, AllocError> {
        Ok(MasterSender::of(self.alloc, Arc::try_clone(&self.shared)?))
    }

    /// Sends octets to a member, without waiting. What the system does not take is lost.
    fn send(&self, roster: &Roster, member: u8, octets: &[u8]) {
        if let Some(address) = htcp_of(roster, member) {
            // (a CLR that is lost is sent again)
            let _ = self.shared.socket.send_to(octets, address.socket());
        }
    }

    /// Sends octets to each of these members, by ascending id, in the same way.
    fn send_to_all(&self, roster: &Roster, members: MemberSet, octets: &[u8]) {
        for id in 1..=LAST_MEMBER {
            if members.has(id) {
                self.send(roster, id, octets);
            }
        }
    }

    /// Enters a new number, so that its CLRs are sent again from 20 milliseconds on, and has the
    /// loop look.
    fn enter<R: Wait + Clock>(&self, rt: &R, number: u32) {
        // (without a clock the CLRs are sent again at once)
        let now = moment(rt).unwrap_or(0);
        self.shared.schedule.lock(rt).add(number, now);
        // (a loop that is not woken looks within 100 milliseconds)
        let _ = self.shared.waker.wake();
    }

    /// Has the loop send the CLR of each pending number up to this one, the last that was given, as
    /// soon as it may, whenever it was sent before. The owner calls it once the members run, while
    /// no number is given: what was sent to the members before is lost.
    pub fn send_afresh<R: Wait>(&self, rt: &R, last: u32) {
        self.shared.schedule.lock(rt).restart(last);
        // (a loop that is not woken looks within 100 milliseconds)
        let _ = self.shared.waker.wake();
    }

    /// Enters a new number, and sends its CLR to each member that it needs, by ascending id.
    fn announce<S: PurgeStore, R: Wait + Clock>(
        &self,
        rt: &R,
        roster: &Roster,
        master: &SharedMaster<S>,
        number: u32,
    ) {
        self.enter(rt, number);
        let missing = master.missing(rt, number);
        if let Some(octets) = clear_of(rt, self.alloc, master, number) {
            self.send_to_all(roster, missing, octets.as_slice());
        }
    }

    /// Issues a purge of a URL, and sends its CLR to each member that it needs, by ascending id
    /// (RFC 2756, "CLR"). Returns the purge's number.
    ///
    /// Faults: those of `Master::issue`, and `NoMemory` where there is no memory for the call;
    /// nothing is sent then. A CLR for which there is no memory, or that the system does not take,
    /// is lost: the purge stands, and its CLR is sent again 20 milliseconds later.
    pub fn issue<S: PurgeStore, R: Wait + Clock>(
        &self,
        rt: &R,
        roster: &Roster,
        master: &SharedMaster<S>,
        key: Key,
    ) -> Result<u32, MasterFault>
        ensures { IfErr result (λ fault. fault ≢ faults.ShiftFull) }
    {
        match master.call(rt, MasterCall::Issue(key)) {
            Ok(MasterAnswer::Issue(number)) => {
                self.announce(rt, roster, master, number);
                Ok(number)
            }
            Ok(_) => unreachable!(),
            Err(fault) => Err(fault),
        }
    }

    /// Admits the joining member of an id, and sends it the CLR of its admission. Returns the
    /// admission's number.
    ///
    /// Faults: those of `Master::admit`, and `NoMemory` where there is no memory for the call;
    /// nothing is sent then. A CLR for which there is no memory, or that the system does not take,
    /// is lost: the admission stands, and its CLR is sent again 20 milliseconds later.
    pub fn admit<S: PurgeStore, R: Wait + Clock>(
        &self,
        rt: &R,
        roster: &Roster,
        master: &SharedMaster<S>,
        id: u8,
    ) -> Result<u32, MasterFault>
        ensures { IfErr result (λ fault. fault ≢ faults.ShiftFull) }
    {
        match master.call(rt, MasterCall::Admit(id)) {
            Ok(MasterAnswer::Admit(number)) => {
                self.announce(rt, roster, master, number);
                Ok(number)
            }
            Ok(_) => unreachable!(),
            Err(fault) => Err(fault),
        }
    }

    /// The CLR of a pending number, if it is to be sent now.
    fn clear_again<S: PurgeStore, R: Wait>(
        &self,
        rt: &R,
        master: &SharedMaster<S>,
        number: u32,
        now: u64,
        has_room: bool,
    ) -> Option<Vec<u8>>
        ensures { IfSome result (λ octets. AreClearOf number octets.items) }
    {
        if !self.shared.schedule.lock(rt).takes(number, now, has_room) {
            return None;
        }
        clear_of(rt, self.alloc, master, number)
    }

    /// Sends the CLRs of these pending numbers to these members, where they are to be sent now: of
    /// the first 256, and of the other members of the last number among them. A number that was not
    /// sent before waits while 256 CLRs of young ones are not acknowledged.
    fn send_pairs<S: PurgeStore, R: Wait>(
        &self,
        rt: &R,
        roster: &Roster,
        master: &SharedMaster<S>,
        pairs: &[(u32, u8)],
        now: u64,
    ) {
        let mut left = MOST_AGAIN;
        let mut room = self.shared.schedule.lock(rt).room(pairs, now);
        let mut known = 0;
        let mut clear = None;
        for (number, member) in pairs {
            if *number != known {
                if left == 0 {
                    self.shared.schedule.lock(rt).hurry();
                    break;
                }
                known = *number;
                clear = self.clear_again(rt, master, *number, now, 0 < room);
            }
            if let Some(octets) = &clear {
                self.send(roster, *member, octets.as_slice());
                left = left.saturating_sub(1);
                room = room.saturating_sub(1);
            }
        }
    }

    /// Sends the CLRs of 64 pending purges that no member misses to each member that they need. A
    /// member that had not acknowledged them was taken out of the roster, so nothing is due of
    /// them; the next acknowledgement makes them done. Where none comes, they are sent more and
    /// more seldom, up to once a second.
    fn send_settled<S: PurgeStore, R: Wait>(
        &self,
        rt: &R,
        roster: &Roster,
        master: &SharedMaster<S>,
        now: u64,
    ) {
        let Ok(numbers) = master.settled(rt) else {
            return;
        };
        self.shared
            .schedule
            .lock(rt)
            .note_settled(numbers.len(), now);
        if numbers.is_empty() {
            self.shared.schedule.lock(rt).end_settled();
        }
        for number in numbers.as_slice().iter().take(MOST_SETTLED) {
            if let Some(octets) = clear_of(rt, self.alloc, master, *number) {
                self.send_to_all(roster, master.needed(rt, *number), octets.as_slice());
            }
        }
    }

    /// Sends what is due again: the CLR of a pending number to each member that it needs and that
    /// has not acknowledged it, by number and then by id; and those of purges that no member
    /// misses. Nothing is sent where the master does not answer. Where nothing can be due and no
    /// such purge may be there no call is made, so an idle master makes no entries.
    pub(crate) fn send_due<S: PurgeStore, R: Wait>(
        &self,
        rt: &R,
        roster: &Roster,
        master: &SharedMaster<S>,
        now: u64,
    ) {
        let last = self.shared.schedule.lock(rt).last();
        self.shared.schedule.lock(rt).begin(now);
        let takes_settled = self.shared.schedule.lock(rt).takes_settled(now);
        if !takes_settled && !master.may_be_due(rt) {
            self.shared.schedule.lock(rt).keep(last, &[]);
            return;
        }
        match master.call(rt, MasterCall::Due) {
            Ok(MasterAnswer::Due(pairs)) => {
                self.shared.schedule.lock(rt).keep(last, pairs.as_slice());
                self.send_pairs(rt, roster, master, pairs.as_slice(), now);
                if takes_settled {
                    self.send_settled(rt, roster, master, now);
                }
            }
            // (a closed master counts no acknowledgement)
            Err(MasterFault::Closed) => self.shared.schedule.lock(rt).end_settled(),
            _ => (),
        }
    }
}
