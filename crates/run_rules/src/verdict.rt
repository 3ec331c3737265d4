/// What is wrong with the records and entries of a run. If several hold at one note, the first of
/// these is named.
#[derive(Clone, Copy, Debug, PartialEq, Eq)]
pub enum Cause {
    /// The place stands twice, or is not greater than the place before it in the records of the
    /// same node or in the master's list.
    DoublePlace,
    /// What an entry received from a member or from the master was not sent to this receiver
    /// before.
    NotSent,
    /// A node's step, or a call of the master, cannot have this outcome there. Or a step received a
    /// response of an origin or a foreign cache that nothing pending asked for.
    OtherReply,
    /// A record closes in a state to which its entries do not lead; or it opened in a state that is
    /// neither the node's last one nor that of a restart; or the roster has no such member. The
    /// place is that of the record's last entry, 0 if it has none.
    OtherState,
}

/// The verdict on the records and entries of a run.
#[derive(Clone, Copy, Debug, PartialEq, Eq)]
pub enum Verdict {
    /// They are a run of the model, and purges are safe in it.
    Yes,
    /// They have a flaw.
    No {
        /// The place of the first flaw.
        place: u64,
        /// What is wrong there.
        cause: Cause,
    },
}
