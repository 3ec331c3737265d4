//! The node that `cache answer` begins with.
ghost use Rattle.std.specs.Prelude.{◌≡◌, ◌⊎◌, IfOk, IfErr};
ghost use Rattle.cli_answer.specs.Answer.{IsFirst};

use floor_rules::{FloorFault, MemoryFloors};
use node_core::{Node, OpenFault};
use roster::{Roster, RosterFault};
use std::alloc::Global;
use values_lines::RunFault;

/// The roster of the program: two members that are siblings, and the origin of `http://o/`.
pub const ROSTER: &str = "default_lifetime = 60
copies = 1000
bytes = 1048576
query_wait = 2000

[master]
address = \"127.0.0.1\"
htcp = 4800

[[node]]
id = 1
name = \"n1\"
address = \"127.0.0.1\"
http = 8101
icp = 3101
htcp = 4101
[[node.peer]]
id = 2
role = \"sibling\"
by = \"icp\"

[[node]]
id = 2
name = \"n2\"
address = \"127.0.0.1\"
http = 8102
icp = 3102
htcp = 4102
[[node.peer]]
id = 1
role = \"sibling\"
by = \"icp\"

[[origin]]
host = \"o\"
port = 80
address = \"127.0.0.1\"
connect = 8080
";

/// The member of the roster that answers.
const MEMBER: u8 = 1;

/// A node whose copies have no tags, with its floors in memory.
pub(crate) type Answering = Node<(), MemoryFloors>;

/// The node at the start: it holds nothing, and no key has a purge number.
///
/// Faults: `NoMemory`; `NoFirstNode` where the roster gives no node for another cause, which never
/// comes (no contract says so).
pub(crate) fn first_node(alloc: Global) -> Result<Answering, RunFault>
    ensures ok { IfOk result IsFirst }
    ensures err { IfErr result (λ fault. (fault ≡ RunFault.NoMemory)
        ⊎ (fault ≡ RunFault.NoFirstNode)) }
{
    let roster = match Roster::read(alloc, ROSTER) {
        Ok(roster) => roster,
        Err(error) => return Err(cause(error.fault == RosterFault::NoMemory)),
    };
    match Node::open(alloc, roster, MEMBER, MemoryFloors::new(alloc)) {
        Ok(node) => Ok(node),
        Err(OpenFault::NoMemory | OpenFault::Floors(FloorFault::NoMemory)) => {
            Err(RunFault::NoMemory)
        }
        Err(_) => Err(RunFault::NoFirstNode),
    }
}

/// The fault of a start, by whether memory was lacking.
fn cause(lacks_memory: bool) -> RunFault
    ensures { (result ≡ RunFault.NoMemory) ⊎ (result ≡ RunFault.NoFirstNode) }
{
    if lacks_memory {
        RunFault::NoMemory
    } else {
        RunFault::NoFirstNode
    }
}
