//! What becomes of a record.
/// What becomes of the record of a node, by its pages.
#[derive(Clone, Copy, Debug, PartialEq, Eq)]
pub enum Retention {
    /// This many pages are kept at most, the open one counted. Where there would be one more, all
    /// of them are dropped, and none is kept from then on.
    UpTo(u32),
    /// They are dropped.
    Dropped,
}
