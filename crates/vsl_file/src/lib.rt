//! Log files: a header and units, each word as four bytes, in version 1 or 2 of the words.
//!
//! `FileReader` gives the units of a file one after the other, as far as they are whole and correct, and
//! says how the file ends. It reads in pieces of 64 KiB, one pass, and holds at most one unit and a piece.
//! `put_header`, `put_records`, `put_alone` and `put_each` write what it reads, and `put_record` and `put_unit_of` a
//! unit record by record. Nothing here opens a file or guesses what a damaged unit was.
//!
//! Start with `specs/File.antt`, then `specs/ReaderState.antt`. The format is this project's choice; it is
//! not Varnish's own.
#![tactic(auto)]

mod alone;
mod fault;
mod filling;
mod header;
mod laws;
mod reader;
mod steps;
mod writing;

pub use alone::{put_alone, put_each};
pub use fault::FileFault;
pub use filling::read_behind;
pub use laws::{every_file, one_content, whole_units, written_reads_back};
pub use reader::{FileReader, FileStep};
pub use writing::{put_header, put_record, put_records, put_unit, put_unit_of};
