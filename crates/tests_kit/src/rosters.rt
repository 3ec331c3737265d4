//! Texts of rosters. The master of each is at port 4800 of 127.0.0.1, and the origin of `http://o/`
//! at port 8080.
use roster::Roster;
use std::alloc::Global;
use std::test::Fail;

/// One member, and the origin of `http://o/`.
pub const ONE: &str = "default_lifetime = 60
copies = 1000
bytes = 1048576
query_wait = 2000

[master]
address = \"127.0.0.1\"
htcp = 4800

[[node]]
id = 1
name = \"n1\"
address = \"127.0.0.1\"
http = 8101
icp = 3101
htcp = 4101

[[origin]]
host = \"o\"
port = 80
address = \"127.0.0.1\"
connect = 8080
";

/// Two members that are siblings by ICP, and the origin of `http://o/`. Tests of rosters change
/// single lines of this text.
pub const TWO: &str = "default_lifetime = 60
copies = 1000
bytes = 1048576
query_wait = 2000

[master]
address = \"127.0.0.1\"
htcp = 4800

[[node]]
id = 1
name = \"n1\"
address = \"127.0.0.1\"
http = 8101
icp = 3101
htcp = 4101
[[node.peer]]
id = 2
role = \"sibling\"
by = \"icp\"

[[node]]
id = 2
name = \"n2\"
address = \"127.0.0.1\"
http = 8102
icp = 3102
htcp = 4102
[[node.peer]]
id = 1
role = \"sibling\"
by = \"icp\"

[[origin]]
host = \"o\"
port = 80
address = \"127.0.0.1\"
connect = 8080
";

/// One member, whose sibling by ICP is a foreign cache, and the origin of `http://o/`.
pub const FOREIGN: &str = "default_lifetime = 60
copies = 1000
bytes = 1048576
query_wait = 2000

[master]
address = \"127.0.0.1\"
htcp = 4800

[[node]]
id = 1
name = \"n1\"
address = \"127.0.0.1\"
http = 8101
icp = 3101
htcp = 4101
[[node.peer]]
id = 101
role = \"sibling\"
by = \"icp\"

[[foreign]]
id = 101
name = \"f1\"
address = \"127.0.0.1\"
http = 8201
icp = 3201
htcp = 4201

[[origin]]
host = \"o\"
port = 80
address = \"127.0.0.1\"
connect = 8080
";

/// The roster of a text, or the name of its fault.
pub fn roster_of(alloc: Global, text: &str) -> Result<Roster, Fail> {
    match Roster::read(alloc, text) {
        Ok(roster) => Ok(roster),
        Err(error) => Err(error.fault.name().into()),
    }
}
