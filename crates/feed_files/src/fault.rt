//! Why feeds aren't read.

use log_model::Text;
use thiserror::Error;

/// Why feeds aren't read: what is wrong with the first that has a fault.
#[derive(Debug, Drop, Error)]
pub enum FeedFault {
    /// The file can't be opened.
    #[error("a feed can't be opened")]
    NoOpen {
        /// The file's name.
        name: Text,
    },
    /// A read failed.
    #[error("a feed can't be read")]
    ReadFault {
        /// The file's name.
        name: Text,
    },
    /// The file has more bytes than are read.
    #[error("a feed has more than {limit} bytes")]
    TooLarge {
        /// The file's name.
        name: Text,
        /// How many bytes are read of it.
        limit: u64,
    },
    /// A line of the file is bad.
    #[error("bad line {line} of feed {feed}")]
    BadListing {
        /// Which feed it is, in the order of their names, from 0.
        feed: u32,
        /// The first line that is bad, from 1.
        line: u64,
    },
}
