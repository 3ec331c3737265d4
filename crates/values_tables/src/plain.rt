ghost use Rattle.std.specs.Prelude.{◌≡◌};
ghost use Rattle.values_tables.specs.Roles.{is_sibling as is_sibling_role};
ghost use Rattle.values_tables.specs.Roles.{is_parent as is_parent_role};

use values_plain::{Address, Listed, Udp};

/// What a peer is to the node that names it (RFC 2187, section 2).
#[derive(Clone, Copy, Debug, PartialEq, Eq)]
pub enum Role {
    /// The node asks it only for what it holds.
    Sibling,
    /// The node may also ask it to fetch what it does not hold.
    Parent,
}

impl Role {
    /// Whether the role is `Sibling`.
    pub fn is_sibling(self) -> bool
        ensures { result ≡ is_sibling_role self }
    {
        match self {
            Role::Sibling => true,
            Role::Parent => false,
        }
    }

    /// Whether the role is `Parent`.
    pub fn is_parent(self) -> bool
        ensures { result ≡ is_parent_role self }
    {
        match self {
            Role::Sibling => false,
            Role::Parent => true,
        }
    }
}

/// A cache that a node asks, as the entry of the node names it.
#[derive(Clone, Copy, Debug, PartialEq, Eq)]
pub struct Peer {
    /// Its id: 1 to 16 for a member, 101 to 108 for a foreign cache.
    pub id: u8,
    /// What it is to the node that names it.
    pub role: Role,
    /// The protocol by which the node queries it.
    pub by: Udp,
}

/// A cache: its id, its name and its three addresses, which have one IPv4 address.
#[derive(Debug, Drop)]
pub struct Cache {
    /// Its id: 1 to 16 for a member, 101 to 108 for a foreign cache.
    pub id: u8,
    /// Its name: 1 to 32 lower-case letters and digits.
    pub name: Listed<u8>,
    /// Its address for HTTP, over TCP.
    pub http: Address,
    /// Its address for ICP, over UDP.
    pub icp: Address,
    /// Its address for HTCP, over UDP.
    pub htcp: Address,
}

/// A cache of the hierarchy, and the peers that it asks.
#[derive(Debug)]
pub struct Member {
    /// The cache.
    pub cache: Cache,
    /// Whether it is joining: it takes part once the master of purges has admitted it. Else it is
    /// founding. `false` unless the roster says otherwise.
    pub joins: bool,
    /// Its peers, in the order in which it asks them.
    pub peers: Listed<Peer>,
}

impl Drop for Member {
    fn drop(self) {
        let Member {
            cache: _,
            joins: _,
            peers: _,
        } = self;
    }
}

/// An origin server, by the host and the port that URLs name.
#[derive(Debug, Drop)]
pub struct Origin {
    /// The host: 1 to 255 lower-case letters, digits, `.` and `-`.
    pub host: Listed<u8>,
    /// The port in URLs, from 1.
    pub port: u16,
    /// The address to connect to, over TCP.
    pub connect: Address,
}

/// The limits of each node.
#[derive(Clone, Copy, Debug, PartialEq, Eq)]
pub struct Limits {
    /// The lifetime of an answer that gives none, 0 to 2147483648 seconds.
    pub default_lifetime: u64,
    /// The greatest number of copies in the store of a node, 1 to 65,536.
    pub copies: u64,
    /// The greatest size of the store of a node, 1 to 1,073,741,824 octets.
    pub bytes: u64,
    /// How long a node waits for replies of its peers, 1 to 60,000 milliseconds.
    pub query_wait: u64,
    /// How long a client may take for its whole response at any rate, 1 to 60,000 milliseconds;
    /// after that it has to take 1,024 octets a second. 5,000 unless the roster says otherwise.
    pub answer_wait: u64,
    /// How long a fetch may take, from the moment at which it connects, 1 to 60,000 milliseconds.
    /// 5,000 unless the roster says otherwise.
    pub fetch_wait: u64,
    /// How long a request may take, with all its queries and fetches, 1 to 600,000 milliseconds.
    /// 15,000 unless the roster says otherwise.
    pub ask_wait: u64,
    /// How many connections a node opens to one address at once, 1 to 1,024. 64 unless the roster
    /// says otherwise.
    pub fetches_per_address: u64,
    /// How many connections from one address wait at a node for their requests to come, 1 to
    /// 1,024. 128 unless the roster says otherwise.
    pub clients_per_address: u64,
}

/// What the text of a roster says.
#[derive(Debug)]
pub struct Tables {
    /// The limits of each node.
    pub limits: Limits,
    /// The address of the master of purges, over UDP.
    pub master: Address,
    /// The caches of the hierarchy, in the order of the text. At least one is founding.
    pub members: Listed<Member>,
    /// Caches of others, which members may ask, in the order of the text.
    pub foreign: Listed<Cache>,
    /// The origin servers, in the order of the text.
    pub origins: Listed<Origin>,
}

impl Drop for Tables {
    fn drop(self) {
        let Tables {
            limits: _,
            master: _,
            members: _,
            foreign: _,
            origins: _,
        } = self;
    }
}
