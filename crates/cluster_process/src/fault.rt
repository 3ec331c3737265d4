//! Why a cluster does not start, or ends early.
ghost use Rattle.std.specs.Prelude.{◌≡◌};
ghost use Rattle.cluster_process.specs.Names.{cluster_fault_name};

use cluster_master::MasterStartFault;
use floor_rules::FloorFault;
use node_workers::{StartFault, StopFault};
use purge_master::MasterOpenFault;
use purge_rules::PurgeFault;
use std::alloc::AllocError;
use thiserror::Error;

/// What is wrong with the file of a member, where a folder is that of other members.
#[derive(Clone, Copy, Debug, PartialEq, Eq, Error)]
pub enum OtherFile {
    /// It is there, and is that of no member of the roster.
    #[error("is there, and the roster has no such member")]
    Surplus,
    /// It is missing beside a master's file, and its member is a founding one.
    #[error("is missing, and its member does not join")]
    Missing,
    /// It has a number, and its member joins and was not admitted.
    #[error("has numbers, and its member joins and was not admitted")]
    Early,
}

/// Why a cluster does not start, or ends before its input. No thread of it runs then, and no socket
/// of it is open.
#[derive(Debug, Drop, Error)]
pub enum ClusterFault {
    /// A file in the folder is that of no member of the roster; or the folder has a master's file,
    /// and lacks that of a founding member; or a joining member's file has a number, and the member
    /// was not admitted.
    #[error("{dir}/node-{id}.db {what}: the files are those of other members than the roster's")]
    OtherRoster {
        /// The folder.
        dir: String,
        /// The id of the first member whose file is wrong.
        id: u8,
        /// What is wrong with it.
        what: OtherFile,
    },
    /// The file of a member or of the master could not be opened, or it is lost: only its log is
    /// there.
    #[error("the file {path} could not be opened")]
    File {
        /// The file.
        path: String,
    },
    /// The file of a member was opened, and is not one that can be used.
    #[error("{path}: {fault}")]
    Floors {
        /// The file.
        path: String,
        /// Why.
        fault: FloorFault,
    },
    /// The master's file was opened, and is not one that can be used.
    #[error("{path}: {fault}")]
    Purges {
        /// The file.
        path: String,
        /// Why.
        fault: PurgeFault,
    },
    /// The purges of the master's file could not be read.
    #[error("the master: {0}")]
    MasterOpen(MasterOpenFault),
    /// The master's socket is not opened.
    #[error("{0}")]
    MasterStart(MasterStartFault),
    /// A socket of a member is not opened: one of its ports is in use, its address is not this
    /// machine's, or the system gives no more sockets or poll instances.
    #[error("node {id}: not each of its ports {http} (HTTP), {icp} (ICP) and {htcp} (HTCP) could be opened")]
    Ports {
        /// Its id.
        id: u8,
        /// Its TCP port for HTTP.
        http: u16,
        /// Its UDP port for ICP.
        icp: u16,
        /// Its UDP port for HTCP.
        htcp: u16,
    },
    /// A member is not started.
    #[error("node {id}: {fault}")]
    Node {
        /// Its id.
        id: u8,
        /// Why.
        fault: StartFault,
    },
    /// The thread of the master could not be started.
    #[error("no thread could be made for the master")]
    NoThread,
    /// The system gave no random hash keys, or no poll instance for the client of `get`.
    #[error("the system gave no random keys, or nothing to wait on")]
    System,
    /// The folder's master has not given a number that a member has stored: the master's file is
    /// missing or too old. The next purges would have numbers that were given before.
    #[error("{dir}/master.db is missing or too old: its last number is {last}, and node {id} has stored number {number}; put back the newest one, or begin with an empty folder")]
    MasterBehind {
        /// The folder.
        dir: String,
        /// The last number that the master has given; 0 if it has given none.
        last: u32,
        /// The id of the member.
        id: u8,
        /// The greatest number that the member has stored.
        number: u32,
    },
    /// The file of a member lacks a number that the member has acknowledged, by the master's file:
    /// it is missing, empty or too old, or a part of it is lost; or the roster said until now that
    /// the member joins. The member would have forgotten purges.
    #[error("{dir}/node-{id}.db is missing or too old: it lacks number {number}, which by master.db node {id} has acknowledged; put back the newest one with its -wal, and `joins` if it was there, or take node {id} out of the roster and its files out of the folder")]
    MemberBehind {
        /// The folder.
        dir: String,
        /// The id of the member.
        id: u8,
        /// The number of a purge, or of the member's admission.
        number: u32,
    },
    /// The input could not be read, before its end. All lines before that were answered.
    #[error("the input could not be read")]
    Input,
    /// The output did not take each answer. All lines were answered.
    #[error("an answer could not be written")]
    Output,
    /// A member ran, and its records are not given.
    #[error("node {id}, at its end: {fault}")]
    Stop {
        /// Its id.
        id: u8,
        /// Why.
        fault: StopFault,
    },
    /// There was no memory.
    #[error("there was no memory")]
    NoMemory,
}

impl ClusterFault {
    /// The name that the program prints: that of the fault inside, where there is one; `Io` for a
    /// file or a socket that is not opened.
    pub const fn name(&self) -> &'static str
        ensures { result.now ≡ cluster_fault_name self.now }
    {
        match self {
            ClusterFault::File { .. }
            | ClusterFault::Ports { .. }
            | ClusterFault::System
            | ClusterFault::Input
            | ClusterFault::Output => "Io",
            ClusterFault::OtherRoster { .. } => "OtherRoster",
            ClusterFault::MasterBehind { .. } => "MasterBehind",
            ClusterFault::MemberBehind { .. } => "MemberBehind",
            ClusterFault::Floors { fault, .. } => fault.name(),
            ClusterFault::Purges { fault, .. } => fault.name(),
            ClusterFault::MasterOpen(fault) => fault.name(),
            ClusterFault::MasterStart(fault) => fault.name(),
            ClusterFault::Node { fault, .. } => fault.name(),
            ClusterFault::NoThread => "NoThread",
            ClusterFault::Stop { fault, .. } => fault.name(),
            ClusterFault::NoMemory => "NoMemory",
        }
    }
}

impl From<AllocError> for ClusterFault {
    ghost use Rattle.std.specs.Prelude.{◌≡◌};
    ghost use Rattle.cluster_process.specs.declared.fault.ClusterFault.TheVariants.{NoMemory};

    ghost from_gives = { λ _ fault. fault ≡ NoMemory };

    fn from(_: AllocError) -> ClusterFault {
        ClusterFault::NoMemory
    }
}
