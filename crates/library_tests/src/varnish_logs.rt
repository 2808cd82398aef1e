//! Logs of a running Varnish: that a whole one is copied, whatever pieces it comes in, and that what is whole is written
//! before more is read.

use crate::support::same;
use log_model::Halt;
use std::alloc::Global;
use std::process::Abort;
use varnish_log::{Asked, Copied, CopyFault, Counts, LogFault, copy_log};
use vio::{INPUT, MemWorld, OUTPUT, World};

/// The first four bytes, a Begin, a Backend, which this project doesn't have, a Link, two CLI of no transaction, an H2RxHdr of three zero
/// bytes, and the first bytes of an End.
const LOG: &[u8] = b"VSL\0\
\x0e\x00\x00L\x01\x00\x00@sess 0 HTTP/1\x00\xaa\xaa\x07\x00\x00\x0c\x01\x00\x00@22 a b\
\x00\xaa\x0c\x00\x00K\x01\x00\x00@req 2 rxreq\x00\x08\x00\x00\x03\x00\x00\x00\x00Rd ping\
\x00\x07\x00\x00\x03\x00\x00\x00\x00Wr 200\x00\xaa\x03\x00\x00W\x01\x00\x00@\x00\x00\x00\
\xaa\x01\x00\x00M\x01\x00";

/// The same records in the form of Varnish 7.3 and later, with a VdpAcct in the place of the Backend.
const WIDE_LOG: &[u8] = b"\
VSL2\x0e\x00\x01J\x01\x00\x00\x00\x00\x00\x00@sess 0 HTTP/1\x00\xaa\xaa\x07\x00\x01]\x01\
\x00\x00\x00\x00\x00\x00@22 a b\x00\xaa\x0c\x00\x01I\x01\x00\x00\x00\x00\x00\x00@req 2 r\
xreq\x00\x08\x00\x01\x03\x00\x00\x00\x00\x00\x00\x00\x00Rd ping\x00\x07\x00\x01\x03\x00\
\x00\x00\x00\x00\x00\x00\x00Wr 200\x00\xaa\x03\x00\x01T\x01\x00\x00\x00\x00\x00\x00@\x00\
\x00\x00\xaa\x01\x00\x01K\x01\x00";

/// The units of what is taken of them, as long as they can be.
const UNITS: &[u8] = b"\
\x0e\x00\x00\xfe\x0d\x00\x00*\x01\x00\x00\x00\x00\x00\x00@sess 0 HTTP/1\x00\x00\x00\x0b\
\x00\x00+\x01\x00\x00\x00\x00\x00\x00@req 2 rxreq\x00\x06\x00\x00\xfe\x07\x00\x00\x03\
\x00\x00\x00\x00\x00\x00\x00\x00Rd ping\x00\x06\x00\x00\xfe\x06\x00\x00\x03\x00\x00\x00\
\x00\x00\x00\x00\x00Wr 200\x00\x00\x05\x00\x00\xfe\x03\x00\x001\x01\x00\x00\x00\x00\x00\
\x00@\x00\x00\x00\x00";

/// A unit for each record that is taken of them.
const SINGLE: &[u8] = b"\
\x08\x00\x00\xfe\x0d\x00\x00*\x01\x00\x00\x00\x00\x00\x00@sess 0 HTTP/1\x00\x00\x00\x07\
\x00\x00\xfe\x0b\x00\x00+\x01\x00\x00\x00\x00\x00\x00@req 2 rxreq\x00\x06\x00\x00\xfe\
\x07\x00\x00\x03\x00\x00\x00\x00\x00\x00\x00\x00Rd ping\x00\x06\x00\x00\xfe\x06\x00\x00\
\x03\x00\x00\x00\x00\x00\x00\x00\x00Wr 200\x00\x00\x05\x00\x00\xfe\x03\x00\x001\x01\x00\
\x00\x00\x00\x00\x00@\x00\x00\x00\x00";

/// The text of the same records, with a line of another grouping, one of a payload's second line, one of a VXID that is too
/// large, a comment and a blank line between them, and the beginning of a line.
const TEXT: &[u8] =
    b"         1 Begin          c sess 0 HTTP/1\n         1 Backend        c 22 a b\n\
*   << Session  >> 1\n         1 Link           c req 2 rxreq\n# of the manager\n\n\
\x20        0 CLI            - Rd ping\nand more\n4611686018427387904 CLI   - no\n\
\x20        0 CLI            - Wr 200\n         1 H2RxHdr        c \x00\x00\x00\n     1 End";

/// What is left out of the binary log.
const COUNTS: Counts = Counts {
    parts: 6,
    unknown_tags: 1,
    long_payloads: 0,
    other_vxids: 0,
    other_groupings: 0,
    other_forms: 0,
};

/// What is left out of the text.
const TEXT_COUNTS: Counts = Counts {
    parts: 11,
    other_vxids: 1,
    other_groupings: 1,
    other_forms: 1,
    ..COUNTS
};

/// Whether a log is a text, its bytes, how many come at once at most, and what is written of it; what is left out of it,
/// and how many bytes are left at its end.
type Row = (bool, &'static [u8], usize, &'static [u8], Counts, usize);

const ROWS: [Row; 6] = [
    (false, LOG, LOG.len(), UNITS, COUNTS, 6),
    (false, LOG, 5, SINGLE, COUNTS, 6),
    (false, WIDE_LOG, WIDE_LOG.len(), UNITS, COUNTS, 6),
    (false, WIDE_LOG, 5, SINGLE, COUNTS, 6),
    (true, TEXT, TEXT.len(), UNITS, TEXT_COUNTS, 10),
    (true, TEXT, 5, SINGLE, TEXT_COUNTS, 10),
];

/// What is asked of copying a log, where nothing is refused.
const fn of(text: bool) -> Asked {
    Asked {
        text,
        strict: false,
    }
}

/// A world whose standard input has these bytes, of which so many come at once at most.
fn world_of(rt: &impl Abort, alloc: Global, log: &[u8], most: usize) -> MemWorld {
    let mut world = MemWorld::new(alloc).expect(rt, "memory");
    world.file("-", log).expect(rt, "memory");
    world.piece(most);
    world
}

/// Copies a log, and compares what is written and left out.
fn check(rt: &impl Abort, alloc: Global, row: &Row) {
    let (text, log, most, units, counts, left) = *row;
    let mut world = world_of(rt, alloc, log, most);
    let copied = copy_log(alloc, &mut world, of(text), INPUT, OUTPUT);
    same(rt, copied.expect(rt, "a copy"), Copied { counts, left });
    same(rt, world.content(OUTPUT), units);
}

#[test]
fn a_log_is_copied_whatever_pieces_it_comes_in(rt: HostRuntime) {
    for row in &ROWS {
        check(&rt, rt.alloc(), row);
    }
}

/// Whether a copy ended since a write failed.
fn is_unwritten(copied: &Result<Copied, Halt<LogFault>>) -> bool {
    matches!(
        copied,
        Err(Halt::Fault(LogFault::Stopped(CopyFault::WriteFault)))
    )
}

/// A read of the first four bytes, five reads of five bytes complete the first record, and the write that follows fails:
/// nothing more was read.
#[test]
fn a_record_is_written_before_more_is_read(rt: HostRuntime) {
    let mut world = world_of(&rt, rt.alloc(), LOG, 5);
    world.fail(7).expect(&rt, "memory");
    let copied = copy_log(rt.alloc(), &mut world, of(false), INPUT, OUTPUT);
    same(&rt, is_unwritten(&copied), true);
    world.piece(LOG.len());
    let mut left = [0; LOG.len()];
    same(&rt, world.read(INPUT, &mut left), Ok(LOG.len() - 29));
}
