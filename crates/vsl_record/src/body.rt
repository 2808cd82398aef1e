//! The records of a unit.

use crate::entry::Entry;
use crate::record_type::Record;
use vsl_words::Version;

/// The bytes of a unit's words in a version, and of each of its records where the payload stands in them.
#[derive(Drop)]
pub(crate) struct Block {
    pub(crate) version: Version,
    pub(crate) bytes: Vec<u8>,
    pub(crate) entries: Vec<Entry>,
}

/// The records of a unit: those of its maker, or those that were read, which stand in a block.
#[derive(Drop)]
pub(crate) enum Body {
    Listed(Vec<Record>),
    Packed(Block),
}
