//! Log files whose text is known.

use crate::byte_table::{OLD_REQUEST_WITH_FETCH, REQUEST_WITH_FETCH};

/// The bytes with which each log file begins that is written.
pub const HEADER: &[u8] = b"VSLOG-2\n";

/// The words that print each record of the file `f` by itself.
pub const PRINT_F: &[&str] = &["varnishlog", "-g", "raw", "-r", "f"];

/// The words that print the file `f` by transaction.
const BY_TRANSACTION: &[&str] = &["varnishlog", "-r", "f"];

/// A unit of a log file: where it ends, what is written once it is taken, and what a flush writes where
/// the log ends with it.
type UnitText = (usize, &'static [u8], &'static [u8]);

/// A log file, the words that print it or write it, and what they write.
#[derive(Clone, Copy)]
pub struct Log {
    pub name: &'static str,
    pub words: &'static [&'static str],
    pub bytes: &'static [u8],
    /// What is written before any unit is taken.
    pub head: &'static [u8],
    pub units: &'static [UnitText],
    pub sink: Sink,
}

/// Where a run writes its text: the handle and the name.
#[derive(Clone, Copy)]
pub struct Sink {
    pub handle: u32,
    pub name: &'static str,
}

pub const OUTPUT: Sink = Sink {
    handle: 1,
    name: "-",
};

/// The file `out`: it is created after the log was opened.
pub const OUT: Sink = Sink {
    handle: 4,
    name: "out",
};

/// A log of a unit of one record, of no transaction and no mark.
pub const PING_BYTES: &[u8] =
    b"VSLOG-2\n\x06\x00\x00\xfe\x07\x00\x00\x03\x00\x00\x00\x00\x00\x00\x00\x00Rd ping\x00";

/// A unit of one record, of no transaction and no mark.
pub const ONE_PING: Log = Log {
    name: "a ping",
    words: PRINT_F,
    bytes: PING_BYTES,
    head: b"",
    units: &[(32, b"         0 CLI            - Rd ping\n", b"")],
    sink: OUTPUT,
};

const FETCH_LINES: &[u8] =
    b"         3 Begin          b bereq 2 fetch\n         3 End            b \n";

const REQUEST_LINES: &[u8] =
    b"         2 Begin          c req 1 rxreq\n         2 Link           c bereq 3 fetch\n         2 End            c \n";

/// A backend's unit and then a client's.
pub const FETCH: Log = Log {
    name: "a request",
    words: PRINT_F,
    bytes: &REQUEST_WITH_FETCH,
    head: b"",
    units: &[(52, FETCH_LINES, b""), (120, REQUEST_LINES, b"")],
    sink: OUTPUT,
};

/// The group of the backend's transaction.
const FETCH_TEXT: &[u8] =
    b"*   << BeReq    >> 3         \n-   Begin          bereq 2 fetch\n-   End            \n\n";

/// The group of the client's transaction.
const REQUEST_TEXT: &[u8] =
    b"*   << Request  >> 2         \n-   Begin          req 1 rxreq\n-   Link           bereq 3 fetch\n-   End            \n\n";

/// The same two units, by transaction.
pub const FETCH_GROUPS: Log = Log {
    name: "two transactions",
    words: BY_TRANSACTION,
    bytes: &REQUEST_WITH_FETCH,
    head: b"",
    units: &[(52, FETCH_TEXT, b""), (120, REQUEST_TEXT, b"")],
    sink: OUTPUT,
};

/// The group of a request that begins and doesn't end.
const OPEN_TEXT: &[u8] =
    b"*   << Request  >> 9         \n-   Begin          req 1 rxreq\n-   VSL            flush\n-   End            synth\n\n";

/// A log of a request that begins and doesn't end, and then the backend's unit.
pub const OPEN_BYTES: &[u8] =
    b"VSLOG-2\n\x07\x00\x00\xfe\x0b\x00\x00\x2a\x09\x00\x00\x00\x00\x00\x00\x40req 1 rxreq\x00\x0b\x00\x00\xfe\x0d\x00\x00\x2a\x03\x00\x00\x00\x00\x00\x00\x80bereq 2 fetch\x00\x00\x00\x00\x00\x00\x2c\x03\x00\x00\x00\x00\x00\x00\x80";

/// A request that begins and doesn't end, and then the backend's unit, by transaction.
pub const OPEN_GROUPS: Log = Log {
    name: "an open transaction",
    words: BY_TRANSACTION,
    bytes: OPEN_BYTES,
    head: b"",
    units: &[(36, b"", OPEN_TEXT), (80, FETCH_TEXT, OPEN_TEXT)],
    sink: OUTPUT,
};

/// The ping, one record by one, as a log file.
pub const PING_TO_FILE: Log = Log {
    name: "a ping to a file",
    words: &["varnishlog", "-g", "raw", "-w", "out", "-r", "f"],
    bytes: PING_BYTES,
    head: HEADER,
    units: &[(
        32,
        b"\x06\x00\x00\xfe\x07\x00\x00\x03\x00\x00\x00\x00\x00\x00\x00\x00Rd ping\x00",
        b"",
    )],
    sink: OUT,
};

/// The unit of the request that doesn't end, once it is flushed.
const OPEN_UNIT: &[u8] =
    b"\x11\x00\x00\xfe\x0b\x00\x00\x2a\x09\x00\x00\x00\x00\x00\x00\x40req 1 rxreq\x00\x05\x00\x00\x2d\x09\x00\x00\x00\x00\x00\x00\x40flush\x00\x00\x00\x05\x00\x00\x2c\x09\x00\x00\x00\x00\x00\x00\x40synth\x00\x00\x00";

/// The request that doesn't end and the backend's unit, by transaction, as a log file.
pub const OPEN_TO_FILE: Log = Log {
    name: "an open transaction to a file",
    words: &["varnishlog", "-w", "out", "-r", "f"],
    bytes: OPEN_BYTES,
    head: HEADER,
    units: &[(36, b"", OPEN_UNIT), (80, FETCH_UNIT, OPEN_UNIT)],
    sink: OUT,
};

/// The unit of the backend's transaction, as it is written.
const FETCH_UNIT: &[u8] =
    b"\x0b\x00\x00\xfe\x0d\x00\x00\x2a\x03\x00\x00\x00\x00\x00\x00\x80bereq 2 fetch\x00\x00\x00\x00\x00\x00\x2c\x03\x00\x00\x00\x00\x00\x00\x80";

/// The unit of the client's transaction, as it is written.
const REQUEST_UNIT: &[u8] =
    b"\x11\x00\x00\xfe\x0b\x00\x00\x2a\x02\x00\x00\x00\x00\x00\x00\x40req 1 rxreq\x00\x0d\x00\x00\x2b\x02\x00\x00\x00\x00\x00\x00\x40bereq 3 fetch\x00\x00\x00\x00\x00\x00\x2c\x02\x00\x00\x00\x00\x00\x00\x40";

/// The backend's unit and the client's, by transaction, as a log file, which is the same one.
pub const FETCH_TO_FILE: Log = Log {
    name: "two transactions to a file",
    words: &["varnishlog", "-w", "out", "-r", "f"],
    bytes: &REQUEST_WITH_FETCH,
    head: HEADER,
    units: &[(52, FETCH_UNIT, b""), (120, REQUEST_UNIT, b"")],
    sink: OUT,
};

/// The same two units in a log file of version 1, record by record.
pub const OLD_FETCH: Log = Log {
    name: "a request of version 1",
    bytes: &OLD_REQUEST_WITH_FETCH,
    units: &[(44, FETCH_LINES, b""), (100, REQUEST_LINES, b"")],
    ..FETCH
};

/// Those, by transaction, as a log file, which is written in version 2.
pub const OLD_FETCH_TO_FILE: Log = Log {
    name: "two transactions of version 1 to a file",
    bytes: &OLD_REQUEST_WITH_FETCH,
    units: &[(44, FETCH_UNIT, b""), (100, REQUEST_UNIT, b"")],
    ..FETCH_TO_FILE
};
