//! A hierarchy that runs in one process: its members, each with its workers, its master, and the
//! judge of its run.
//!
//! [`open_stores`] opens the files of the members and of the master in one folder. [`run_cluster`]
//! starts the master's thread and each member's workers (`node_workers`), has the lines of an input
//! answered (`cluster_console`), and stops and joins every thread, whatever happened, but for one
//! that waits for standard error. For the line
//! `check` it holds all members, gathers their records and the master's entries, lets them go on,
//! and has `run_check` judge all that is kept.
//!
//! Order of reading: `src/cluster.rt` (start, answer, stop); `src/stores.rt`, `src/node_floors.rt`
//! and `src/files.rt` (the files), `specs/Folder.antt` (which of them there may be),
//! `specs/Numbers.antt` (when a master is behind), `src/stored.rt` and `specs/Stored.antt` (when a
//! member is);
//! `src/master_thread.rt`; `src/watch.rt` (who says that a member has closed); `src/judge.rt`,
//! `src/kept.rt` and `specs/Kept.antt` (what is gathered, and how much of it is kept);
//! `src/fault.rt` and `specs/Names.antt` (which file, port or member is at fault);
//! `proofs/Gathering.antt`, `proofs/Sending.antt`, `proofs/Numbers.antt`, `proofs/Needs.antt`.
//!
//! The crate opens files and sockets, starts threads, reads the clock, and draws random hash keys.
//!
//! Contracts say what is judged, and that what was gathered stays (`HasRun`). They do not say that
//! what is gathered is what the members and the master did, nor anything of files, sockets and
//! threads: tests show that.
#![tactic(auto)]

mod cluster;
mod fault;
mod files;
mod judge;
mod kept;
mod master_thread;
mod node_floors;
mod stored;
mod stores;
mod watch;

pub use cluster::{is_worker_count, run_cluster};
pub use fault::{ClusterFault, OtherFile};
pub use kept::RecordedRun;
pub use stores::{Stores, open_stores};
