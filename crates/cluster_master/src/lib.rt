//! The master's event loop, and the master of purges that it shares with an operator's commands.
//!
//! A [`SharedMaster`] is a master's book (the log of its calls) under a lock. Each call draws its
//! place while the lock is held. A book has 4,096 entries at most, called a page, and fewer where
//! their texts and lists have more than some 4 MiB. Where the page is full it is filed before the
//! next call: its entries are kept for the owner to take, or dropped ([`KeptEntries`]). What is
//! kept is bounded by what the entries weigh ([`weight_of_all`]).
//!
//! A [`MasterLoop`] has the master's UDP socket. [`MasterLoop::poll_once`] polls for 100
//! milliseconds at most, makes the calls that datagrams ask for (responses to a CLR; RFC 2756,
//! "CLR"), and sends again the CLR of each pending number to each member that it needs and that has
//! not acknowledged it: after 20 milliseconds, and then after about twice the time, up to a second.
//! Where nothing can be due, no call is made and none is entered. Where a member was taken out of
//! the roster, a purge may be pending that no member misses. From the start on its CLR is sent,
//! more and more seldom, until a member that it needs acknowledges it once more, which makes it
//! done.
//! A [`MasterSender`] issues a purge, or admits a member, and sends the CLR to each member that the
//! number needs, from any thread, on the same socket. No lock is held while a socket is waited for
//! or written.
//!
//! Order of reading: `specs/LockedBook.antt` (what a call does to the book), `specs/Weight.antt`
//! (what its entries weigh), `specs/Answers.antt` (what a caller knows of an answer),
//! `specs/Settled.antt` (which purges no member misses);
//! `src/shared.rt` (the calls), `src/locked_book.rt` (the calls inside the lock), `src/weight.rt`,
//! `src/master_loop.rt` (the loop), `src/sending.rt` (the CLRs), `src/schedule.rt` (when they are
//! sent again), `src/fault.rt`, `specs/Names.antt`; `proofs/Clears.antt`, `proofs/Weights.antt`.
//!
//! The crate opens one socket, polls it, reads the clock, and waits at its lock. It starts no
//! thread: the caller runs [`MasterLoop::run_until`] on one. Files are touched by the store of
//! purges, which is passed in.
//!
//! A contract sees no value under a lock, and nothing that a socket takes or gives. So what a call
//! does is said of the book inside the lock, and what is sent under a number, and where a member
//! is, is said where it is made. That a datagram that came is read and its call made, that CLRs are
//! sent, and that a second is a second, is tested. A CLR that the system does not take is lost, as
//! any datagram may be; it is sent again.
//!
//! What it does not promise: `SharedMaster::call`, `MasterSender::issue` and `admit` may answer
//! `Closed` at once, the latter two any number, `missing` any members, and `message` that the
//! number is not pending, since the master is under the lock. Tests issue purges, admit a member,
//! see the CLRs, and have them acknowledged.
#![tactic(auto)]

mod fault;
mod locked_book;
mod master_loop;
mod schedule;
mod sending;
mod shared;
mod weight;

pub use fault::MasterStartFault;
pub use locked_book::KeptEntries;
pub use master_loop::MasterLoop;
pub use sending::MasterSender;
pub use shared::{HeldMaster, SharedMaster};
pub use weight::weight_of_all;
