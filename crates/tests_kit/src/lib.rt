//! What several crates of tests need alike: texts of rosters, keys, asks, answers, datagrams and
//! addresses, a reader, and how a test says what does not hold. It is used by tests alone. It
//! touches no file, socket, clock or thread: of the network it makes addresses, and opens nothing.
#![tactic(auto)]

mod addresses;
mod holding;
mod messages;
mod pieces;
mod rosters;

pub use addresses::{address_at, socket_at};
pub use holding::{first_wrong, want};
pub use messages::{answer_of, ask_of, clear_of, icp_of, key_of};
pub use pieces::Pieces;
pub use rosters::{FOREIGN, ONE, TWO, roster_of};
