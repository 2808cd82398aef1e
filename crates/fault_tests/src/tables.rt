//! What runs read, and what they write of it: each tool is a row, and so is each input.

use acceptance_support::{Ending, Kept, OPEN_BYTES, PING_BYTES, REQUEST_WITH_FETCH};

/// The names that files may have.
pub const NAMES: &[&str] = &["-", "a", "b", "f", "q", "out"];

/// A tool, and what it writes.
#[derive(Clone, Copy)]
pub struct Tool {
    pub name: &'static str,
    pub words: &'static [&'static str],
    /// The name of what it writes, and what that has before.
    pub sink: &'static str,
    pub there: &'static [u8],
    /// What threads leave as it is of that.
    pub kept: Kept,
    /// Whether it prints groups, and so reads logs, and may be overrun.
    pub groups: bool,
    /// Whether it records what it took.
    pub records: bool,
}

pub const RAW: Tool = Tool {
    name: "lines",
    words: &["varnishlog", "-g", "raw"],
    sink: "-",
    there: b"",
    kept: Kept::FeedLines,
    groups: true,
    records: true,
};

pub const TRANSACTIONS: Tool = Tool {
    name: "transactions",
    words: &["varnishlog"],
    kept: Kept::Groups,
    ..RAW
};

pub const RAW_UNITS: Tool = Tool {
    name: "records as a log file",
    words: &["varnishlog", "-g", "raw", "-w", "out"],
    sink: "out",
    kept: Kept::Units,
    ..RAW
};

pub const TRANSACTION_UNITS: Tool = Tool {
    name: "transactions as a log file",
    words: &["varnishlog", "-w", "out"],
    ..RAW_UNITS
};

/// A log file that has the ping gets more units, and no second header.
pub const MORE_UNITS: Tool = Tool {
    name: "records behind those of a log file",
    words: &["varnishlog", "-g", "raw", "-a", "-w", "out"],
    there: PING_BYTES,
    ..RAW_UNITS
};

/// The command that writes a log file anew, which names it behind the log.
pub const CONVERTED: Tool = Tool {
    name: "a log file anew",
    words: &["convert"],
    sink: "out",
    there: b"",
    kept: Kept::Units,
    groups: true,
    records: false,
};

/// All tools, in all forms of what they write.
pub const TOOLS: [Tool; 15] = [
    RAW,
    TRANSACTIONS,
    Tool {
        name: "requests",
        words: &["varnishlog", "-g", "request"],
        ..TRANSACTIONS
    },
    Tool {
        name: "sessions",
        words: &["varnishlog", "-g", "session"],
        ..TRANSACTIONS
    },
    RAW_UNITS,
    MORE_UNITS,
    TRANSACTION_UNITS,
    Tool {
        name: "requests as a log file",
        words: &["varnishlog", "-g", "request", "-w", "out"],
        ..TRANSACTION_UNITS
    },
    Tool {
        name: "lines in a file",
        words: &["varnishlog", "-g", "raw", "-A", "-w", "out"],
        sink: "out",
        ..RAW
    },
    Tool {
        name: "access lines",
        words: &["varnishncsa"],
        kept: Kept::Lines,
        ..RAW
    },
    Tool {
        name: "access lines in a file",
        words: &["varnishncsa", "-w", "out"],
        sink: "out",
        kept: Kept::Lines,
        ..RAW
    },
    Tool {
        name: "a report",
        words: &["varnishtop", "-1"],
        kept: Kept::Whole,
        ..RAW
    },
    Tool {
        name: "counters",
        words: &["varnishstat", "-1"],
        kept: Kept::Counters,
        groups: false,
        ..RAW
    },
    Tool {
        name: "counters as JSON",
        words: &["varnishstat", "-j", "-f", "MAIN.*req*"],
        kept: Kept::Whole,
        groups: false,
        ..RAW
    },
    Tool {
        name: "names of counters",
        words: &["varnishstat", "-l"],
        kept: Kept::Whole,
        groups: false,
        ..RAW
    },
];

/// What a file holds.
#[derive(Clone, Copy)]
pub enum Content {
    Bytes(&'static [u8]),
    /// A listing of twelve requests of as many sessions, each as long as a segment of 64 words, of VXIDs behind this one.
    LongRequests(u32),
}

/// In which order calls are made.
#[derive(Clone, Copy, PartialEq, Eq)]
pub enum Order {
    /// Each run makes the same calls: of a log, of feeds in a stated order, and of one feed that overruns nobody.
    Same,
    /// Those of feeds on threads.
    Threads,
    /// Those of a feed that overruns its reader, which begins behind eleven of its units.
    Late,
}

/// What a run reads, and how it ends where no call fails but those that must.
#[derive(Clone, Copy)]
pub struct Input {
    pub name: &'static str,
    pub files: &'static [(&'static str, Content)],
    /// Words before those of the tool, and behind them.
    pub before: &'static [&'static str],
    pub behind: &'static [&'static str],
    /// Whether it is a log, which some tools don't read.
    pub is_log: bool,
    /// The name of the log.
    pub log: &'static str,
    /// Where the units of the log end.
    pub ends: &'static [usize],
    /// The most bytes that a call moves.
    pub piece: usize,
    pub order: Order,
    pub ending: Ending,
    /// The messages of overruns and of what they cost, as tools/reference/schedules.py tells them where calls are the same in each run.
    pub overruns: &'static [u8],
}

/// A log file, which most of the rows below are like.
pub const LOG: Input = Input {
    name: "a request and its fetch",
    files: &[("f", Content::Bytes(&REQUEST_WITH_FETCH))],
    before: &[],
    behind: &["-r", "f"],
    is_log: true,
    log: "f",
    ends: &[52, 120],
    piece: 40,
    order: Order::Same,
    ending: Ending::Done,
    overruns: b"",
};

pub const PING: Input = Input {
    name: "a ping",
    files: &[("f", Content::Bytes(PING_BYTES))],
    ends: &[32],
    ..LOG
};

pub const OPEN: Input = Input {
    name: "an open transaction",
    files: &[("f", Content::Bytes(OPEN_BYTES))],
    ends: &[36, 80],
    ..LOG
};

pub const STREAM: Input = Input {
    name: "standard input",
    files: &[("-", Content::Bytes(&REQUEST_WITH_FETCH))],
    behind: &["-r", "-"],
    log: "-",
    ..LOG
};

pub const ASKED: Input = Input {
    name: "a log and queries",
    files: &[
        ("q", Content::Bytes(b"Begin")),
        ("f", Content::Bytes(&REQUEST_WITH_FETCH)),
    ],
    behind: &["-Q", "q", "-q", "End", "-r", "f"],
    ..LOG
};

/// The same without its last byte.
const CUT_REQUEST: &[u8] =
    b"VSLOG-2\n\x0b\x00\x00\xfe\x0d\x00\x00\x2a\x03\x00\x00\x00\x00\x00\x00\x80bereq 2 fetch\x00\x00\x00\x00\x00\x00\x2c\x03\x00\x00\x00\x00\x00\x00\x80\x11\x00\x00\xfe\x0b\x00\x00\x2a\x02\x00\x00\x00\x00\x00\x00\x40req 1 rxreq\x00\x0d\x00\x00\x2b\x02\x00\x00\x00\x00\x00\x00\x40bereq 3 fetch\x00\x00\x00\x00\x00\x00\x2c\x02\x00\x00\x00\x00\x00\x00";

const CUT: Input = Input {
    name: "a cut log",
    files: &[("f", Content::Bytes(CUT_REQUEST))],
    ends: &[52],
    ending: Ending::Damaged(52),
    ..LOG
};

const NO_LOG: Input = Input {
    name: "a file that is no log",
    files: &[("f", Content::Bytes(b"VSLO"))],
    ends: &[],
    ending: Ending::NotALog(4),
    ..LOG
};

/// What ends with a fault where no call fails, whose message may fail.
pub const FAULTS: [Input; 5] = [
    CUT,
    NO_LOG,
    Input {
        name: "a missing log",
        files: &[],
        ending: Ending::NoOpen("f"),
        ..LOG
    },
    Input {
        name: "no groups",
        behind: &["-k0", "-r", "f"],
        ending: Ending::BadValue,
        ..LOG
    },
    Input {
        name: "a missing feed",
        files: &[],
        before: &["--feed", "a", "--feed-first"],
        behind: &[],
        is_log: false,
        ends: &[],
        ending: Ending::NoOpen("a"),
        ..LOG
    },
];

/// The same logs for `convert`, which has no options.
pub const NAMED: [Input; 4] = [
    Input {
        behind: &["f", "out"],
        ..LOG
    },
    Input {
        behind: &["-", "out"],
        ..STREAM
    },
    Input {
        behind: &["f", "out"],
        ..CUT
    },
    Input {
        behind: &["f", "out"],
        ..NO_LOG
    },
];

/// The listing of the request and its fetch.
const FIRST_FEED: &[u8] =
    b"         3 Begin          b bereq 2 fetch\n         3 End            b \n         2 Begin          c req 1 rxreq\n         2 Link           c bereq 3 fetch\n         2 End            c \n";

/// A listing of two more requests.
const SECOND_FEED: &[u8] =
    b"        12 Begin          c req 11 rxreq\n        12 End            c \n        14 Begin          c req 13 rxreq\n        14 ReqURL         c /b\n        14 End            c \n";

/// Feeds, one after the other, which most of the rows below are like. Their units have 52 words.
pub const FEEDS: Input = Input {
    name: "feeds, one after the other",
    files: &[
        ("a", Content::Bytes(FIRST_FEED)),
        ("b", Content::Bytes(SECOND_FEED)),
    ],
    before: &["--ring", "64", "--feed", "a", "--feed", "b", "--feed-first"],
    behind: &[],
    is_log: false,
    log: "",
    ends: &[],
    piece: 120,
    order: Order::Same,
    ending: Ending::Done,
    overruns: b"",
};

pub const TURNS: Input = Input {
    name: "feeds in turns",
    before: &["--ring", "64", "--feed", "a", "--feed", "b", "--turns", "7"],
    ..FEEDS
};

/// Requests that are made, by themselves and in turns with a feed.
pub const MADE: [Input; 2] = [
    Input {
        name: "made requests",
        files: &[],
        before: &["--ring", "1024", "--gen", "2,7", "--feed-first"],
        piece: 600,
        ..FEEDS
    },
    Input {
        name: "a feed and made requests, in turns",
        files: &[("a", Content::Bytes(FIRST_FEED))],
        before: &[
            "--ring", "1024", "--feed", "a", "--gen", "1,7", "--turns", "5",
        ],
        piece: 600,
        ..FEEDS
    },
];

pub const OVERRUN: Input = Input {
    name: "a feed, and then a reader that it overran",
    files: &[("a", Content::LongRequests(100))],
    before: &["--ring", "64", "--feed", "a", "--feed-first"],
    piece: 1000,
    overruns: b"vtools: log overrun at segment 0, counter 13\nvtools: missed 8 units\n",
    ..FEEDS
};

pub const OVERRUN_IN_TURNS: Input = Input {
    name: "feeds in turns with a reader that they overrun",
    files: &[
        ("a", Content::LongRequests(100)),
        ("b", Content::LongRequests(200)),
    ],
    before: &["--ring", "64", "--feed", "a", "--feed", "b", "--turns", "3"],
    piece: 1000,
    overruns: b"vtools: log overrun at segment 3, counter 9\nvtools: missed 2 units\nvtools: log overrun at segment 5, counter 13\nvtools: missed 3 units\nvtools: log overrun at segment 10, counter 17\nvtools: missed 3 units\nvtools: log overrun at segment 13, counter 21\nvtools: missed 3 units\nvtools: log overrun at segment 18, counter 25\nvtools: missed 3 units\n",
    ..FEEDS
};

pub const ONE_ON_A_THREAD: Input = Input {
    name: "a feed on a thread",
    files: &[("a", Content::Bytes(FIRST_FEED))],
    before: &["--ring", "64", "--feed", "a"],
    ..FEEDS
};

pub const TWO_ON_THREADS: Input = Input {
    name: "feeds on threads",
    before: &["--ring", "64", "--feed", "a", "--feed", "b"],
    order: Order::Threads,
    ..FEEDS
};

pub const LATE_READER: Input = Input {
    name: "a feed on a thread that overruns its reader",
    files: &[("a", Content::LongRequests(100))],
    before: &["--ring", "64", "--feed", "a"],
    piece: 1000,
    order: Order::Late,
    overruns: b"vtools: log overrun at segment 0, counter 1",
    ..FEEDS
};
