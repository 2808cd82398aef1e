//! Why a tool stops early.

use log_model::Text;
use query_parser::QueryFault;
use tool_words::UsageFault;

/// Why a tool stops early; each has a message and a status. A name is that of a file, or `-` for standard input
/// or output.
#[derive(Debug, Drop)]
pub enum ToolFault {
    /// Something is wrong with the words.
    Usage(UsageFault),
    /// The pattern of a rule of `-I` or `-X` is no good one.
    BadPattern {
        /// The place of the word that has it, from 0.
        word: u32,
    },
    /// A query's text is refused.
    BadQuery {
        /// Which query it is, in the order of the words, from 0.
        query: u32,
        /// Why it is refused, and the byte.
        fault: QueryFault,
    },
    /// The text of a format is refused.
    BadFormat {
        /// The byte of the first percent sign that begins no formatter, from 0.
        at: u64,
    },
    /// A line of a feed is bad.
    BadListing {
        /// Which feed it is, in the order of the words, from 0.
        feed: u32,
        /// The first line that is bad, from 1.
        line: u64,
    },
    /// The file could not be opened, or not created.
    NoOpen {
        /// The file's name.
        name: Text,
    },
    /// A read failed.
    ReadFault {
        /// The name of what was read.
        name: Text,
    },
    /// A write failed.
    WriteFault {
        /// The name of what was written, or `stderr` where that was a message of an overrun, or of what it cost.
        name: Text,
    },
    /// The input is no log file.
    NotALog {
        /// The input's name.
        name: Text,
        /// The first byte that isn't the header's, from 0, or the length of an input that ends inside the header.
        at: u64,
    },
    /// A unit of the log isn't whole and correct.
    Damaged {
        /// The log's name.
        name: Text,
        /// The byte where the unit begins, from 0.
        at: u64,
    },
    /// The log, or the file of a query or of a feed, has more bytes than are read.
    TooLarge {
        /// The file's name.
        name: Text,
        /// How many bytes are read of it.
        limit: u64,
    },
    /// A file that has bytes was to be appended to as a log file, and doesn't begin with the header of version 2.
    OldLog {
        /// The file's name.
        name: Text,
    },
}
