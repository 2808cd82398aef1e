//! Where a record of a block stands.

use crate::mark::Mark;
use vsl_tags::Tag;

/// A record of a block: its payload is some bytes of the block.
#[derive(Clone, Copy)]
pub(crate) struct Entry {
    /// What the record is about.
    pub(crate) tag: Tag,
    /// The mark of its transaction.
    pub(crate) mark: Mark,
    /// How many bytes the payload has: at most 4,000.
    pub(crate) size: u16,
    /// The byte of the block where the payload begins.
    pub(crate) at: u32,
}
