//! 32-bit words of a log: how bytes are words, how a payload is words, and what the versions of a unit's words are.
//!
//! Bytes are words by four, the lowest byte first. A version of a unit's words is a value, `Version`: it says how many
//! words tell whose a record is, and with that the range of VXIDs and the most words of a unit; what is said of words is
//! said once, over a version. Nothing here knows what a record or a unit is.
//!
//! Start with `specs/Words.antt` and `specs/Versions.antt`. The words are this project's choice.
#![tactic(auto)]

mod bytes;
mod laws;
mod packed;
mod version;

pub use bytes::{
    NEXT_WORD, bytes_of, first_word, header_word, id_in, is_padded, keep_words, word_count,
};
pub use laws::are_bytes;
pub use packed::{behind_first, first_packed, packed_word};
pub use version::Version;
