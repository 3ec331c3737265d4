//! When the CLRs of pending purges are sent again. That of an admission is sent as a purge's is.
ghost use Rattle.std.specs.Prelude.{◌≡◌, ◌≤◌, ◌*◌, length, min, true, IfErr};

use std::alloc::Global;

/// How many milliseconds after a purge was issued its CLR is sent again.
const FIRST_WAIT: u64 = 20;

/// How many milliseconds at most pass from one CLR of a purge to the next.
const LONGEST_WAIT: u64 = 1_000;

/// How many milliseconds pass at least from one sending of what is due to the next, which bounds
/// how many datagrams are sent again in all.
const PACE: u64 = 10;

/// How many milliseconds after purges that no member misses were sent, and some of them done, they
/// are sent again.
const SETTLED_WAIT: u64 = 100;

/// How many milliseconds after its first CLRs a pending purge is young: its members are taken to be
/// at work on it.
const YOUTH: u64 = 100;

/// How many CLRs of young purges may be unacknowledged where another purge is sent for the first
/// time by the loop, so that a start with many pending purges does not fill the members' buffers.
const MOST_YOUNG: u32 = 256;

/// When the CLR of a pending purge is sent again.
#[derive(Clone, Copy, Drop)]
struct Again {
    /// The number of the purge.
    number: u32,
    /// The moment.
    at: u64,
    /// How many milliseconds pass until the time after that.
    wait: u64,
    /// Until when it is young.
    young: u64,
}

impl Again {
    /// A purge whose CLR was sent for the first time now.
    fn first(number: u32, now: u64) -> Again {
        Again {
            number,
            at: now.saturating_add(FIRST_WAIT),
            wait: longer(FIRST_WAIT),
            young: now.saturating_add(YOUTH),
        }
    }

    /// Whether the CLR is sent again now. If so, the next time is set.
    fn takes(&mut self, now: u64) -> bool {
        if now < self.at {
            return false;
        }
        self.at = now.saturating_add(spread(self.number, self.wait));
        self.wait = longer(self.wait);
        true
    }
}

/// Twice the wait, but a second at most.
fn longer(wait: u64) -> u64
    ensures { result ≡ min (2 * wait) 1000 }
{
    wait.saturating_mul(2).min(LONGEST_WAIT)
}

/// The wait, or up to a quarter less by the number, so that purges that were issued together are
/// not all sent again together.
fn spread(number: u32, wait: u64) -> u64
    ensures most { result ≤ wait }
    ensures least { wait ≤ 2 * result }
{
    wait - u64::from(number.wrapping_mul(2_654_435_761)) % (wait / 4 + 1)
}

/// When the CLR of each pending purge is sent again. Moments are milliseconds of a clock that never
/// goes back.
#[derive(Drop)]
pub(crate) struct Schedule {
    /// By ascending numbers.
    row: Vec<Again>,
    /// When the master is asked what is due, at the latest.
    look: u64,
    /// When purges that no member misses are sent again; never where there are none.
    settled: u64,
    /// How many milliseconds pass until the time after that.
    settled_wait: u64,
    /// How many such purges there were when they were last sent.
    settled_count: usize,
    /// When something is sent again, at the earliest.
    paced: u64,
    /// Up to this number a pending purge may lack an entry. One with a greater number that lacks
    /// one is being issued: who issues it enters it, and sends its first CLRs.
    old: u32,
}

impl Schedule {
    /// A schedule of no purges. The master is asked at once what is due.
    pub(crate) fn new(alloc: Global) -> Schedule {
        Schedule {
            row: Vec::new(alloc),
            look: 0,
            settled: u64::MAX,
            settled_wait: SETTLED_WAIT,
            settled_count: 0,
            paced: 0,
            old: u32::MAX,
        }
    }

    /// Forgets when CLRs were sent: each pending purge up to this number, that of the last purge,
    /// is due at once, and so is one that no member misses.
    pub(crate) fn restart(&mut self, last: u32) {
        self.row.clear();
        self.look = 0;
        self.settled = 0;
        self.settled_wait = SETTLED_WAIT;
        self.settled_count = 0;
        self.paced = 0;
        self.old = last;
    }

    /// Enters a purge whose CLR was sent for the first time now. Where there is no memory, it is
    /// sent again within a second.
    pub(crate) fn add(&mut self, number: u32, now: u64) {
        if let Err(place) = place_of(self.row.as_slice(), number) {
            if self.row.insert(place, Again::first(number, now)).is_err() {
                self.old = self.old.max(number);
            }
        }
    }

    /// The greatest number that is entered; 0 where there is none.
    pub(crate) fn last(&self) -> u32 {
        match self.row.last() {
            Some(again) => again.number,
            None => 0,
        }
    }

    /// When something is to be sent again, or the master to be asked.
    pub(crate) fn earliest(&self) -> u64 {
        self.row
            .iter()
            .map(|again| again.at)
            .fold(self.look.min(self.settled), |least, at| least.min(at))
            .max(self.paced)
    }

    /// Drops the purges up to this number that are not among the pending ones.
    pub(crate) fn keep(&mut self, last: u32, pending: &[(u32, u8)]) {
        self.row.retain(|again| last < again.number || is_pending(pending, again.number));
    }

    /// Whether purges that no member misses are sent now. If so, the next time is set; from one to
    /// the next twice the time passes, up to a second.
    pub(crate) fn takes_settled(&mut self, now: u64) -> bool
        ensures { result ≡ true →
            self.exit.now.settled_wait ≡ min (2 * self.entry.now.settled_wait) 1000 }
    {
        if now < self.settled {
            return false;
        }
        self.settled = now.saturating_add(self.settled_wait);
        self.settled_wait = longer(self.settled_wait);
        true
    }

    /// Notes how many purges that no member misses there are as they are sent. Where an
    /// acknowledgement has made some of them done, the next are sent 100 milliseconds later.
    pub(crate) fn note_settled(&mut self, count: usize, now: u64) {
        if count < self.settled_count {
            self.settled = now.saturating_add(SETTLED_WAIT);
            self.settled_wait = longer(SETTLED_WAIT);
        }
        self.settled_count = count;
    }

    /// There are no purges that no member misses, or none of them can be made done.
    pub(crate) fn end_settled(&mut self) {
        self.settled = u64::MAX;
    }

    /// Begins to send what is due now. The master is asked again within a second.
    pub(crate) fn begin(&mut self, now: u64) {
        self.look = now.saturating_add(LONGEST_WAIT);
        self.paced = now.saturating_add(PACE);
    }

    /// How many CLRs may be sent now with a purge for the first time among them: 256 less those of
    /// young purges that are not acknowledged.
    pub(crate) fn room(&self, pending: &[(u32, u8)], now: u64) -> u32
        ensures { result ≤ 256 }
    {
        let mut room = MOST_YOUNG;
        for (number, _) in pending {
            if self.is_young(*number, now) {
                room = room.saturating_sub(1);
            }
        }
        room
    }

    /// Whether the purge of this number is entered and young.
    fn is_young(&self, number: u32, now: u64) -> bool {
        match place_of(self.row.as_slice(), number) {
            Ok(place) => match self.row.get(place) {
                Some(again) => now < again.young,
                None => false,
            },
            Err(_) => false,
        }
    }

    /// Has the master be asked again as soon as the pace allows: some of what is due was left out.
    pub(crate) fn hurry(&mut self) {
        self.look = self.paced;
    }

    /// Whether the CLR of this pending purge is sent now. If so, the next time is set. A purge that
    /// is not entered is sent, and entered, where there is room for it, unless it is being issued.
    pub(crate) fn takes(&mut self, number: u32, now: u64, has_room: bool) -> bool {
        match place_of(self.row.as_slice(), number) {
            Ok(place) => match self.row.get_mut(place) {
                Some(again) => again.takes(now),
                None => false,
            },
            Err(_) if number > self.old => false,
            Err(_) if has_room => {
                self.add(number, now);
                true
            }
            Err(_) => {
                self.hurry();
                false
            }
        }
    }
}

/// Where the purge of this number is, or where it would be.
fn place_of(row: &[Again], number: u32) -> Result<usize, usize>
    ensures { IfErr result (λ place. place ≤ length row.now) }
{
    row.binary_search_by_key(&number, |again| again.number)
}

/// Whether the purge of this number is among the pending ones, which ascend.
fn is_pending(pending: &[(u32, u8)], number: u32) -> bool {
    pending.binary_search_by_key(&number, |pair| pair.0).is_ok()
}
