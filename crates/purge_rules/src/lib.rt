//! The rules of the master of purges: the one definition of its calls, its purges in memory, and
//! the contract of a store that keeps them.
//!
//! The master gives the numbers 1, 2, 3 and so on to purges and to admissions of joining nodes. A
//! number is *pending* until each member that it needs has acknowledged it by a response to its CLR
//! (RFC 2756, section 6.5); then it is *done*. Which members a number needs is defined once:
//! `needed`. The code of the master is `purge_master`; the world, the checker and the proofs cite
//! the definition here.
//!
//! - `MasterCall`, `MasterAnswer`, `Status`: the calls of a master and what they return.
//!   `is_acknowledging`: which codes of a response acknowledge.
//! - `MasterFault`, `PurgeFault`: why a call on a master, or on its store, fails.
//! - `Purges`, `Purge`, `Admission`: the last number, the pending purges and all admissions, in
//!   memory.
//! - `MemberSet`: a set of members, by ids of 1 to 16. `Nodes`: the members of a roster, and which
//!   of them join.
//! - `PurgeStore`: the contract of a store whose purges outlive a restart: `load`, `add`, `admit`,
//!   `mark`, `finish`, `failures`. `MemoryPurges`: a store in memory, for the world and for tests.
//!   The store in a file is `purge_records`.
//! - `clear`, `base_clear`: the CLR of a purge, and that of an admission.
//!
//! Read in this order:
//!
//! 1. `specs/Needed.antt`: which members a number needs. `specs/Members.antt`: sets of members.
//!    `specs/Purges.antt`: what is stored, and how it is added to, marked and ended.
//! 2. `specs/Calls.antt`: what each call returns and leaves, as a function (`called`); then the
//!    relation `Calls`, in which allocations and the store may also fail.
//! 3. `specs/Clear.antt`: the CLRs. `specs/Names.antt`: the names of the faults.
//! 4. `src/calls.rt`, `src/fault.rt`: the types of calls, answers and faults.
//! 5. `src/store.rt` with `specs/Store.antt`: the contract of a store. `src/memory.rt`: the store
//!    in memory.
//! 6. `src/purges.rt` with `specs/Places.antt`, `src/giving.rt`, `src/waiting.rt` with
//!    `specs/Waiting.antt`, `src/nodes.rt`, `src/members.rt` with `specs/MemberPlaces.antt`,
//!    `src/sending.rt`: the code.
//! 7. `proofs/Lib.antt`: the proofs, in order.
//!
//! The nodes of the roster (`nodes_of`) are one parameter of the definitions. A contract sees a
//! `Purges` as the last number, the list of pending purges and the list of admissions
//! (`PurgeList`), and a `MemberSet` as the list of its ids, ascending. The crate touches no file,
//! socket, clock or thread.
//!
//! Not promised: what a store returns after `NoMemory` from a call that writes. The contract says
//! so only after `StoreFault`.
#![tactic(auto)]

mod calls;
mod fault;
mod giving;
mod members;
mod memory;
mod nodes;
mod purges;
mod sending;
mod store;
mod waiting;

pub use calls::{MasterAnswer, MasterCall, Status, is_acknowledging};
pub use fault::{MasterFault, PurgeFault};
pub use members::MemberSet;
pub use memory::MemoryPurges;
pub use nodes::Nodes;
pub use purges::{Admission, LAST_NUMBER, MOST_PENDING, Purge, Purges};
pub use sending::{base_clear, clear};
pub use store::PurgeStore;
