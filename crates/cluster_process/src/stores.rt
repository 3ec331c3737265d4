//! The files of a cluster, in one folder: `node-N.db` for each member N, and `master.db`.
ghost use Rattle.std.specs.Prelude.{◌≡◌, ◌==◌, ◌≤◌, ℕ, false, find, insert, length, map};
ghost use Rattle.std.specs.Prelude.{nat_lt, option_map, unwrap_or, IfOk, None, OnErr, OnOk};
ghost use Rattle.std.specs.List.{list_any};
ghost use Rattle.purge_rules.specs.Needed.{nodes_of};
ghost use Rattle.cluster_process.specs.Folder.{file_fits};
ghost use Rattle.cluster_process.specs.Numbers.{has_ahead, IsJudged};
ghost use Rattle.cluster_process.specs.Stored.{AreStored, is_early};

use crate::fault::{ClusterFault, OtherFile};
use crate::files::{MasterStore, NodeStore};
use crate::node_floors::NodeFloors;
use crate::stored::{judge_files, judge_joining};
use floor_rules::{FloorFault, FloorStore};
use purge_numbers::SqliteFloors;
use purge_records::SqlitePurges;
use purge_rules::{PurgeFault, PurgeStore, Purges};
use roster::{LAST_MEMBER, Roster};
use sqlite::{Connection, Error, ErrorCode, File, FileStore};
use std::alloc::{AllocError, Global};
use std::fs;
use std::io::ErrorKind;

/// The stores of a cluster, each over a file: those of the members by ascending id, and the
/// master's.
#[derive(Drop)]
pub struct Stores {
    pub(crate) nodes: Vec<NodeFloors<NodeStore>>,
    pub(crate) purges: MasterStore,
}

/// What becomes of the file of a member that is not there, or is empty.
#[derive(Clone, Copy)]
enum Lacking {
    /// It stays so.
    Left,
    /// It is made.
    Made,
}

/// Opens the files of a roster's members and of its master in a folder that exists: `node-N.db` for
/// each member N, by ascending id, and `master.db`. Files that are not there, and those that are
/// empty, are made once the others are judged.
///
/// Faults, the first that comes:
///
/// - `OtherRoster`, before any file is opened: a file is that of no member; or the folder has a
///   master's file, and lacks that of a founding member. (Without a master's file a first start may
///   have been cut off.)
/// - For the first of the files that hold something, or have only left their log, the members' by
///   ascending id and then the master's, `File` or `NoMemory`, or the fault of its tables.
/// - `MemberBehind`: a member has acknowledged a number, as the master has stored, that is greater
///   than those in its file; an empty or missing file has none.
/// - `MasterBehind`: a member has stored a number that is greater than the last one of the master,
///   0 where it has no file.
/// - `OtherRoster`: the file of a joining member has a number, and the member was not admitted. It
///   is of another cluster, or the member was a founding one.
/// - The same faults as above for the first of the other files, which are made only now.
///
/// After a fault no file is open. Before the last kind no file was made, and those that are there
/// hold what they held, though the database may have put a log beside one of them.
pub fn open_stores(
    files: &HostRuntime,
    alloc: Global,
    roster: &Roster,
    dir: &str,
) -> Result<Stores, ClusterFault> {
    if let Some((id, what)) = other_file(files, alloc, roster, dir)? {
        let dir = String::from_str(alloc, dir)?;
        return Err(ClusterFault::OtherRoster { dir, id, what });
    }
    let mut nodes = Vec::with_capacity(alloc, roster.members().len())?;
    open_nodes(files, alloc, roster, dir, Lacking::Left, &mut nodes)?;
    match filled_master(files, alloc, dir) {
        Ok(Some((purges, given))) => {
            match complete(files, alloc, roster, dir, &given, &mut nodes) {
                Ok(()) => Ok(Stores { nodes, purges }),
                Err(fault) => Err(fault),
            }
        }
        Ok(None) => {
            let given = Purges::new(alloc);
            complete(files, alloc, roster, dir, &given, &mut nodes)?;
            match open_master(files, alloc, dir) {
                Ok(purges) => Ok(Stores { nodes, purges }),
                Err(fault) => Err(fault),
            }
        }
        Err(fault) => Err(fault),
    }
}

/// Opens the master's file, with the numbers that it has given; none, where it is not there or
/// empty.
fn filled_master(
    files: &HostRuntime,
    alloc: Global,
    dir: &str,
) -> Result<Option<(MasterStore, Purges)>, ClusterFault> {
    if !is_filled(files, alloc, master_path(alloc, dir)?)? {
        return Ok(None);
    }
    match open_master(files, alloc, dir) {
        Ok(mut purges) => match given_by(alloc, &mut purges) {
            Ok(given) => Ok(Some((purges, given))),
            Err(fault) => Err(unread(master_path(alloc, dir)?, fault)),
        },
        Err(fault) => Err(fault),
    }
}

/// Judges the members' files that are open by what the master has given. Only then makes the
/// others.
#[tactic(auto, using(crate::proofs::Numbers::judged_well, crate::proofs::Numbers::stored_well, crate::proofs::Numbers::in_time))]
fn complete(
    files: &HostRuntime,
    alloc: Global,
    roster: &Roster,
    dir: &str,
    given: &Purges,
    nodes: &mut Vec<NodeFloors<NodeStore>>,
) -> Result<(), ClusterFault>
    ensures numbers { OnOk result (has_ahead given.now.last (map (λ n. n.seen) nodes.new.items)
        ≡ false) }
    ensures files { OnOk result (AreStored (nodes_of roster.now) given.now
        (λ id. unwrap_or (option_map (λ n. n.seen) (find (λ n. n.id == id) nodes.old.items)) 0)) }
    ensures early { OnOk result (find
        (λ n. is_early (nodes_of roster.now) given.now n.id n.seen) nodes.old.items ≡ None) }
{
    let last = given.last();
    let named = String::from_str(alloc, dir)?;
    judge_files(named, roster, given, nodes.as_slice())?;
    judge_numbers(String::from_str(alloc, dir)?, last, nodes.as_slice())?;
    judge_joining(
        String::from_str(alloc, dir)?,
        roster,
        given,
        nodes.as_slice(),
    )?;
    open_nodes(files, alloc, roster, dir, Lacking::Made, nodes)?;
    // (so are those that were made)
    judge_numbers(String::from_str(alloc, dir)?, last, nodes.as_slice())
}

/// Why the purges of the master's file were not read.
fn unread(path: String, fault: PurgeFault) -> ClusterFault {
    match fault {
        PurgeFault::NoMemory => ClusterFault::NoMemory,
        fault => ClusterFault::Purges { path, fault },
    }
}

/// What a master has given.
fn given_by<P: PurgeStore>(alloc: Global, purges: &mut P) -> Result<Purges, PurgeFault>
    ensures { IfOk result (λ given. P.is_honest purges.new → given ≡ P.content purges.new) }
{
    purges.load(alloc)
}

/// The first member that has stored a number greater than this one.
fn first_ahead<F: FloorStore>(last: u32, nodes: &[NodeFloors<F>]) -> Option<&NodeFloors<F>>
    ensures { option_map (λ n. n.now) result ≡ find (λ n. nat_lt last n.seen) nodes.now }
{
    nodes.iter().find(|node| last < node.seen)
}

/// Refuses a folder whose master has given no number greater than this one, where a member has
/// stored a greater one: the next purges would have numbers that were given before, and the members
/// would keep their copies.
fn judge_numbers<F: FloorStore>(
    dir: String,
    last: u32,
    nodes: &[NodeFloors<F>],
) -> Result<(), ClusterFault>
    ensures { IsJudged last (map (λ n. n.seen) nodes.now) result }
{
    match first_ahead(last, nodes) {
        Some(node) => Err(ClusterFault::MasterBehind {
            dir,
            last,
            id: node.id,
            number: node.seen,
        }),
        None => Ok(()),
    }
}

/// Whether a folder may have, or lack, the file of a cache that may be a member: it has that of no
/// other cache, and lacks that of a founding member only where it has no master's file.
fn may_be(has_master: bool, is_member: bool, is_founding: bool, has_file: bool) -> bool
    ensures { result ≡ file_fits has_master is_member is_founding has_file }
{
    if has_file {
        is_member
    } else {
        !(has_master && is_founding)
    }
}

/// The first member, by id, whose file is there and may not be, or is missing and may not be. No
/// file is opened. None is returned where the folder may be one of this roster.
fn other_file(
    files: &HostRuntime,
    alloc: Global,
    roster: &Roster,
    dir: &str,
) -> Result<Option<(u8, OtherFile)>, ClusterFault> {
    let has_master = is_there(files, master_path(alloc, dir)?)?;
    for id in 1..=LAST_MEMBER {
        let has_file = is_there(files, node_path(alloc, dir, id)?)?;
        let is_member = roster.is_member(id);
        let is_founding = is_member && roster.is_founding(id);
        if !may_be(has_master, is_member, is_founding, has_file) {
            let what = if has_file {
                OtherFile::Surplus
            } else {
                OtherFile::Missing
            };
            return Ok(Some((id, what)));
        }
    }
    Ok(None)
}

/// Whether this file exists.
fn is_there(files: &HostRuntime, path: String) -> Result<bool, ClusterFault> {
    match fs::exists(files, path.as_str()) {
        Ok(is_there) => Ok(is_there),
        Err(_) => Err(ClusterFault::File { path }),
    }
}

/// Whether this file exists and is not empty. `File` comes also where the file is lost: its log is
/// there without it.
fn is_filled(files: &HostRuntime, alloc: Global, path: String) -> Result<bool, ClusterFault> {
    match fs::metadata(files, path.as_str()) {
        Ok(found) => Ok(0 < found.len()),
        Err(error) if error.kind() == ErrorKind::NotFound => {
            if is_there(files, log_path(alloc, path.as_str())?)? {
                return Err(ClusterFault::File { path });
            }
            Ok(false)
        }
        Err(_) => Err(ClusterFault::File { path }),
    }
}

/// The path of the master's file.
fn master_path(alloc: Global, dir: &str) -> Result<String, AllocError> {
    Ok(format!(in alloc; "{dir}/master.db")?)
}

/// The path of a member's file.
fn node_path(alloc: Global, dir: &str, id: u8) -> Result<String, AllocError> {
    Ok(format!(in alloc; "{dir}/node-{id}.db")?)
}

/// The path of the log that the database keeps beside a file.
fn log_path(alloc: Global, path: &str) -> Result<String, AllocError> {
    Ok(format!(in alloc; "{path}-wal")?)
}

/// Opens the files of the members that are not open yet, by ascending id. Those that are not there
/// or are empty are left, or made.
///
/// Faults: for the first file that is not opened, `File` or `NoMemory`, or the fault of its tables.
fn open_nodes(
    rt: &HostRuntime,
    alloc: Global,
    roster: &Roster,
    dir: &str,
    lacking: Lacking,
    nodes: &mut Vec<NodeFloors<NodeStore>>,
) -> Result<(), ClusterFault> {
    for id in 1..=LAST_MEMBER {
        if roster.is_member(id)
            && !is_open(nodes.as_slice(), id)
            && is_opened(rt, alloc, dir, id, lacking)?
        {
            open_node(rt, alloc, dir, id, nodes)?;
        }
    }
    Ok(())
}

/// Whether the floors of this member are open.
fn is_open<F: FloorStore>(nodes: &[NodeFloors<F>], id: u8) -> bool
    ensures { result ≡ list_any (λ n. n.id == id) nodes.now }
{
    nodes.iter().any(|node| node.id == id)
}

/// Whether the file of a member is opened: it holds something, or it is made.
fn is_opened(
    files: &HostRuntime,
    alloc: Global,
    dir: &str,
    id: u8,
    lacking: Lacking,
) -> Result<bool, ClusterFault> {
    match lacking {
        Lacking::Left => is_filled(files, alloc, node_path(alloc, dir, id)?),
        Lacking::Made => Ok(true),
    }
}

/// Opens the file of a member, and puts its store among those that are open.
fn open_node(
    rt: &HostRuntime,
    alloc: Global,
    dir: &str,
    id: u8,
    nodes: &mut Vec<NodeFloors<NodeStore>>,
) -> Result<(), ClusterFault> {
    let floors = node_store(rt, alloc, dir, id)?;
    match NodeFloors::of(alloc, id, floors) {
        Ok(node) => put_node(nodes, node),
        Err(FloorFault::NoMemory) => Err(ClusterFault::NoMemory),
        Err(fault) => Err(ClusterFault::Floors {
            path: node_path(alloc, dir, id)?,
            fault,
        }),
    }
}

/// Puts a member's floors among those that are there, which ascend by id.
fn put_node<F: FloorStore + Drop>(
    nodes: &mut Vec<NodeFloors<F>>,
    node: NodeFloors<F>,
) -> Result<(), ClusterFault>
    ensures put { OnOk result ((place : ℕ) × (place ≤ length nodes.old.items)
        × (nodes.new.items ≡ insert nodes.old.items place node)) }
    ensures same { OnErr result (nodes.new.items ≡ nodes.old.items) }
{
    let id = node.id;
    let place = nodes.as_slice().partition_point(|other| other.id < id);
    match nodes.insert(place, node) {
        Ok(()) => Ok(()),
        Err(_) => Err(ClusterFault::NoMemory),
    }
}

/// Opens the file of a member.
fn node_store(
    rt: &HostRuntime,
    alloc: Global,
    dir: &str,
    id: u8,
) -> Result<NodeStore, ClusterFault> {
    let path = node_path(alloc, dir, id)?;
    let connection = connected(rt, alloc, path.as_str())?;
    match SqliteFloors::open(alloc, connection) {
        Ok(floors) => Ok(NodeStore { floors }),
        Err((_, fault)) => Err(ClusterFault::Floors { path, fault }),
    }
}

/// Opens the master's file, with the same faults as those of the members' files.
fn open_master(rt: &HostRuntime, alloc: Global, dir: &str) -> Result<MasterStore, ClusterFault> {
    let path = master_path(alloc, dir)?;
    let connection = connected(rt, alloc, path.as_str())?;
    match SqlitePurges::open(alloc, connection) {
        Ok(purges) => Ok(MasterStore { purges }),
        Err((_, fault)) => Err(ClusterFault::Purges { path, fault }),
    }
}

/// A database connection to a file.
fn connected(
    rt: &HostRuntime,
    alloc: Global,
    path: &str,
) -> Result<Connection<FileStore<File>>, ClusterFault> {
    match Connection::open(rt, path) {
        Ok(connection) => Ok(connection),
        Err(Error::SqliteFailure(ErrorCode::OutOfMemory)) => Err(ClusterFault::NoMemory),
        Err(_) => Err(ClusterFault::File {
            path: String::from_str(alloc, path)?,
        }),
    }
}
