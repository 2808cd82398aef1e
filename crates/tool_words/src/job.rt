//! What a command line asks for.

use log_model::{Listed, Text};
use txn_rows::Grouping;
use vsl_select::{RuleText, Sides};

/// Which tool is to work.
#[derive(Clone, Copy, Debug, PartialEq, Eq)]
pub enum Tool {
    Log,
    Ncsa,
    Top,
    Stat,
}

/// In which order writers and reader work where the log isn't a file.
#[derive(Clone, Copy, Debug, PartialEq, Eq)]
pub enum Order {
    /// Side by side.
    Threads,
    /// In turns that this number chooses.
    Turns(u32),
    /// Feed after feed, and then the reader.
    FeedFirst,
}

/// What varnishstat prints: its lines, its JSON, or the list of counters.
#[derive(Clone, Copy, Debug, PartialEq, Eq)]
pub enum StatMode {
    Once,
    Json,
    List,
}

/// A query as it was given.
#[derive(Debug, Drop)]
pub struct QueryText {
    /// Whether the text is the name of a file that has the queries (`-Q`).
    pub file: bool,
    pub text: Text,
}

/// What a command line asks for.
#[derive(Debug, Drop)]
pub struct Job {
    pub tool: Tool,
    /// The name of the log file.
    pub file: Option<Text>,
    /// The names of the listings that are fed.
    pub feeds: Listed<Text>,
    /// How many requests are made up, and the number that chooses them.
    pub made: Option<(u32, u32)>,
    /// Words in a segment of the ring.
    pub seg: u32,
    /// The most bytes of a payload that is fed.
    pub reclen: u32,
    pub order: Order,
    pub grouping: Grouping,
    /// The most transactions that may be pending.
    pub limit: u32,
    /// Seconds after which a transaction is force-completed.
    pub timeout: u32,
    /// How many groups are taken, where there is a limit.
    pub keep: Option<u32>,
    pub sides: Sides,
    pub caseless: bool,
    pub verbose: bool,
    pub queries: Listed<QueryText>,
    pub rules: Listed<RuleText>,
    /// The name of the file that is written.
    pub write: Option<Text>,
    pub append: bool,
    /// Whether text is written rather than a log file.
    pub text: bool,
    pub format: Option<Text>,
    pub first_field: bool,
    pub stat: StatMode,
    pub globs: Listed<Text>,
}
