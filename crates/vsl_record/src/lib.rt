//! Records and units of a log, and a unit's words.
//!
//! A worker writes the log in units: records of one VXID and one mark. In each of two versions a unit has one
//! spelling as 32-bit words, and no spelling begins another. Version 2 is written, and both are read: `read_unit` (and
//! `read_unit1`, of version 1) reads the unit that begins a list of words, and never looks past the words that the
//! unit's header counts; `read_unit_bytes` reads it from bytes. Where no unit begins the words, all answer the first
//! fault and its place.
//!
//! Start with `specs/Unit.antt`, `specs/Words.antt` and `specs/WordFaults.antt`.
//! Source: vsl(7); the words are this project's choice.
#![tactic(auto)]

mod body;
mod each_word;
mod entry;
mod fault;
mod laws;
mod lent;
mod mark;
mod payload;
mod reading;
mod record_type;
mod records;
mod unit;
mod views;
mod words;
mod writing;

pub use each_word::UnitWords;
pub use fault::{RecordFault, UnitFault, WordFault};
pub use laws::{every_words, is_unit, old_units_fit, one_fault, one_spelling};
pub use lent::{RecordView, RecordsView};
pub use mark::Mark;
pub use payload::{MAX_PAYLOAD, Payload};
pub use reading::read_unit_bytes;
pub use record_type::Record;
pub use records::Records;
pub use unit::{
    HEADER_MARK, MAX_UNIT_WORDS, TOP_BYTE, UNIT_MARK, Unit, VXID_END, Vxid, count_words,
};
pub use views::UnitView;
pub use vsl_words::Version;
pub use words::{read_unit, read_unit1};
pub use writing::unit_words;
