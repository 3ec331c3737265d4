use url_key::Key;

/// What a CLR of the master raises.
#[derive(Debug, Drop)]
pub enum Raise {
    /// The floor of a key: the CLR is a purge.
    Floor {
        /// The key.
        key: Key,
        /// The number of the purge.
        number: u32,
    },
    /// The base of all floors: the CLR admits the node.
    Base {
        /// The number of the admission.
        number: u32,
    },
}
