//! Records and units, up to the longest: 2,097,152 words.

use crate::support::{Rec, made_unit, same, unit_of};
use std::alloc::Global;
use std::process::Abort;
use vsl_record::{
    Mark, Record, RecordFault, Unit, UnitFault, Version, Vxid, WordFault, read_unit, read_unit1,
    unit_words,
};
use vsl_tags::Tag;
use vsl_tags::named::END;

/// A unit of one record: CLI "Rd ping", of no transaction and no mark.
const ONE_PING: [u32; 6] = [
    0xfe00_0006,
    0x0300_0007,
    0x0000_0000,
    0x0000_0000,
    0x7020_6452,
    0x0067_6e69,
];

/// How many records have the longest payload. Each takes 1,003 words, all 2,096,270.
const LONG_RECORDS: usize = 2090;

/// The longest payload.
const LONG: [u8; 4000] = [0x61; 4000];

/// A last record of 3,512 bytes takes 881 words, and one byte more takes a word more.
const LAST: [u8; 3513] = [0x62; 3513];

/// The words of a record with the longest payload: its length and its tag, its VXID and its mark, and its bytes.
const LONG_HEAD: [u32; 3] = [0x2d00_0fa0, 0x0000_0005, 0x4000_0000];

const LONG_WORDS: [u32; 1000] = [0x6161_6161; 1000];

/// The words of the first 3,512 bytes of the last record.
const LAST_WORDS: [u32; 878] = [0x6262_6262; 878];

/// The number of the tag VSL.
const VSL: u8 = 45;

/// The transaction.
const VXID: Vxid = 5;

/// A payload of more bytes than a record has.
const TOO_LONG: [u8; 4001] = [0xa5; 4001];

/// Those records and a last one, as a unit.
fn long_unit(rt: &impl Abort, alloc: Global, last: &[u8]) -> Result<Unit, UnitFault> {
    let long: Rec<'_> = (VSL, &LONG);
    let mut records = Vec::new(alloc);
    for _ in 0..LONG_RECORDS {
        records.push(long).expect(rt, "memory");
    }
    records.push((VSL, last)).expect(rt, "memory");
    made_unit(rt, alloc, VXID, &records)
}

/// Adds words.
fn add(rt: &impl Abort, words: &mut Vec<u32>, more: &[u32]) {
    words.extend_from_slice(more).expect(rt, "memory");
}

/// The words of the unit of those records: a header that counts so many, the words of the long records,
/// and those of the last one, which begin with this head and end with these after 3,512 bytes.
fn long_words(rt: &impl Abort, alloc: Global, count: u32, head: u32, after: &[u32]) -> Vec<u32> {
    let mut words = Vec::new(alloc);
    add(rt, &mut words, &[0xfe00_0000 | count]);
    for _ in 0..LONG_RECORDS {
        add(rt, &mut words, &LONG_HEAD);
        add(rt, &mut words, &LONG_WORDS);
    }
    add(rt, &mut words, &[head, 0x0000_0005, 0x4000_0000]);
    add(rt, &mut words, &LAST_WORDS);
    add(rt, &mut words, after);
    words
}

/// The unit that words begin with, and how many it takes.
fn read(rt: &impl Abort, alloc: Global, words: &[u32]) -> (Unit, usize) {
    read_unit(alloc, words).expect(rt, "a unit")
}

/// A unit has the records of another.
fn expect_records(rt: &impl Abort, read: &Unit, made: &Unit) {
    let (read, made) = (read.records(), made.records());
    same(rt, read.len(), made.len());
    for i in 0..read.len().min(made.len()) {
        let (a, b) = (read.get(i), made.get(i));
        same(
            rt,
            (a.tag().number(), a.mark(), a.payload()),
            (b.tag().number(), b.mark(), b.payload()),
        );
    }
}

/// The unit has this VXID, this mark, and so many records.
fn expect_head(rt: &impl Abort, unit: &Unit, vxid: Vxid, mark: Mark, records: usize) {
    same(
        rt,
        (unit.vxid(), unit.mark(), unit.records().len()),
        (vxid, mark, records),
    );
}

#[test]
fn the_longest_unit_is_read(rt: HostRuntime) {
    let alloc = rt.alloc();
    let (last, _) = LAST.split_at(3512);
    let made = long_unit(&rt, alloc, last).expect(&rt, "a unit");
    let spelled = long_words(&rt, alloc, 2_097_152, 0x2d00_0db8, &[]);
    let (read, taken) = read(&rt, alloc, &spelled);
    same(&rt, (spelled.len(), taken), (2_097_152, 2_097_152));
    expect_head(&rt, &read, VXID, Mark::Client, LONG_RECORDS + 1);
    expect_head(&rt, &made, VXID, Mark::Client, LONG_RECORDS + 1);
    expect_records(&rt, &read, &made);
}

#[test]
fn a_unit_of_one_word_more_is_refused(rt: HostRuntime) {
    let alloc = rt.alloc();
    let refused = long_unit(&rt, alloc, &LAST).err();
    same(&rt, refused, Some(UnitFault::TooLong { words: 2_097_153 }));
    let spelled = long_words(&rt, alloc, 2_097_153, 0x2d00_0db9, &[0x0000_0062]);
    same(&rt, spelled.len(), 2_097_153);
    expect_fault(
        &rt,
        alloc,
        Version::Two,
        &spelled,
        WordFault::BadLength { at: 0 },
    );
}

#[test]
fn a_payload_has_at_most_4000_bytes(rt: HostRuntime) {
    let alloc = rt.alloc();
    let tag = Tag::from_number(92).expect(&rt, "92 is a tag");
    let refused = Record::new(alloc, tag, Mark::Backend, &TOO_LONG).err();
    same(&rt, refused, Some(RecordFault::TooLong { bytes: 4001 }));
    let (longest, _) = TOO_LONG.split_at(4000);
    let made = Record::new(alloc, tag, Mark::Backend, longest).expect(&rt, "a record");
    same(
        &rt,
        (made.tag.number(), made.mark, made.view().words()),
        (92, Mark::Backend, 1003),
    );
    same(&rt, made.payload.as_slice(), longest);
}

#[test]
fn a_unit_has_a_record(rt: HostRuntime) {
    let alloc = rt.alloc();
    let refused = made_unit(&rt, alloc, 7, &[]).err();
    same(&rt, refused, Some(UnitFault::Empty));
    let made = unit_of(&rt, alloc, 7, &[(END, b"")]);
    expect_head(&rt, &made, 7, Mark::Client, 1);
}

#[test]
fn one_ping_is_read(rt: HostRuntime) {
    let (unit, taken) = read(&rt, rt.alloc(), &ONE_PING);
    same(&rt, taken, 6);
    expect_head(&rt, &unit, 0, Mark::Plain, 1);
    let records = unit.records();
    for i in 0..records.len() {
        let one = records.get(i);
        same(
            &rt,
            (one.tag().number(), one.mark(), one.payload()),
            (3, Mark::Plain, b"Rd ping".as_slice()),
        );
    }
}

#[test]
fn a_unit_tells_its_words(rt: HostRuntime) {
    let alloc = rt.alloc();
    let (unit, taken) = read(&rt, alloc, &ONE_PING);
    same(&rt, unit.words(), taken);
    let all = unit_words(alloc, &unit).expect(&rt, "memory");
    same(&rt, all.as_slice(), ONE_PING.as_slice());
    for place in 0..unit.words() {
        same(&rt, Some(unit.word_at(place)), all.get(place).copied());
    }
}

/// The first fault of words that begin with no unit of this version.
fn fault_of(alloc: Global, version: Version, words: &[u32]) -> Option<WordFault> {
    match version {
        Version::One => read_unit1(alloc, words).err(),
        Version::Two => read_unit(alloc, words).err(),
    }
}

/// The words begin with no unit of this version, and this is their first fault.
fn expect_fault(rt: &impl Abort, alloc: Global, version: Version, words: &[u32], fault: WordFault) {
    same(rt, fault_of(alloc, version, words), Some(fault));
}

/// Words that begin with no unit, and their first fault.
type Faulty = (&'static [u32], WordFault);

/// Each of these has its fault.
fn expect_faults(rt: &impl Abort, alloc: Global, version: Version, rows: &[Faulty]) {
    for (words, fault) in rows {
        expect_fault(rt, alloc, version, *words, *fault);
    }
}

/// Words whose header is at fault, or alone.
const AT_THE_HEADER: [Faulty; 6] = [
    (&[], WordFault::Short),
    (
        &[
            0xfe00_0006,
            0x0300_0007,
            0x0000_0000,
            0x0000_0000,
            0x7020_6452,
        ],
        WordFault::Short,
    ),
    (
        &[
            0x0300_0007,
            0x0000_0000,
            0x0000_0000,
            0x7020_6452,
            0x0067_6e69,
        ],
        WordFault::BadTag { at: 0 },
    ),
    (&[0xfe00_0003], WordFault::BadLength { at: 0 }),
    (&[0xfe20_0001], WordFault::BadLength { at: 0 }),
    (&[0xfe20_0000], WordFault::Short),
];

/// The same of version 1.
const OLD_AT_THE_HEADER: [Faulty; 6] = [
    (&[], WordFault::Short),
    (
        &[0xfe00_0005, 0x0300_0007, 0x0000_0000, 0x7020_6452],
        WordFault::Short,
    ),
    (
        &[0x0300_0007, 0x0000_0000, 0x7020_6452, 0x0067_6e69],
        WordFault::BadTag { at: 0 },
    ),
    (&[0xfe00_0002], WordFault::BadLength { at: 0 }),
    (&[0xfe10_0001], WordFault::BadLength { at: 0 }),
    (&[0xfe10_0000], WordFault::Short),
];

#[test]
fn a_header_at_fault_is_told_before_words_that_are_missing(rt: HostRuntime) {
    expect_faults(&rt, rt.alloc(), Version::Two, &AT_THE_HEADER);
    expect_faults(&rt, rt.alloc(), Version::One, &OLD_AT_THE_HEADER);
}

/// Words whose first record is at fault. The last row is the ping, filled with a one.
const AT_A_FIRST_RECORD: [Faulty; 7] = [
    (
        &[
            0xfe00_0004,
            0x0000_0000,
            0x0000_0000,
            0x0000_0000,
            0x0000_0000,
        ],
        WordFault::BadTag { at: 1 },
    ),
    (
        &[
            0xfe00_0004,
            0xff00_0000,
            0x0000_0000,
            0x0000_0000,
            0x0000_0000,
        ],
        WordFault::BadTag { at: 1 },
    ),
    (
        &[
            0xfe00_0004,
            0x0300_0fa1,
            0x0000_0000,
            0xc000_0000,
            0x0000_0000,
        ],
        WordFault::BadLength { at: 1 },
    ),
    (
        &[
            0xfe00_0004,
            0x0300_0001,
            0x0000_0000,
            0x0000_0000,
            0x0000_0061,
        ],
        WordFault::BadLength { at: 1 },
    ),
    (
        &[
            0xfe00_0005,
            0x0300_0001,
            0x0000_0000,
            0xc000_0000,
            0x0100_0061,
        ],
        WordFault::BadMark { at: 3 },
    ),
    (
        &[
            0xfe00_0005,
            0x0300_0001,
            0x0000_0000,
            0x8000_0000,
            0x0000_0161,
        ],
        WordFault::BadPadding { at: 4 },
    ),
    (
        &[
            0xfe00_0006,
            0x0300_0007,
            0x0000_0000,
            0x0000_0000,
            0x7020_6452,
            0x0167_6e69,
        ],
        WordFault::BadPadding { at: 5 },
    ),
];

/// The same of version 1.
const OLD_AT_A_FIRST_RECORD: [Faulty; 7] = [
    (
        &[0xfe00_0003, 0x0000_0000, 0x0000_0000, 0x0000_0000],
        WordFault::BadTag { at: 1 },
    ),
    (
        &[0xfe00_0003, 0xff00_0000, 0x0000_0000, 0x0000_0000],
        WordFault::BadTag { at: 1 },
    ),
    (
        &[0xfe00_0003, 0x0300_0fa1, 0xc000_0000, 0x0000_0000],
        WordFault::BadLength { at: 1 },
    ),
    (
        &[0xfe00_0003, 0x0300_0001, 0x0000_0000, 0x0000_0061],
        WordFault::BadLength { at: 1 },
    ),
    (
        &[0xfe00_0004, 0x0300_0001, 0xc000_0000, 0x0100_0061],
        WordFault::BadMark { at: 2 },
    ),
    (
        &[0xfe00_0004, 0x0300_0001, 0x8000_0000, 0x0000_0161],
        WordFault::BadPadding { at: 3 },
    ),
    (
        &[
            0xfe00_0005,
            0x0300_0007,
            0x0000_0000,
            0x7020_6452,
            0x0167_6e69,
        ],
        WordFault::BadPadding { at: 4 },
    ),
];

#[test]
fn a_first_record_at_fault_is_told(rt: HostRuntime) {
    expect_faults(&rt, rt.alloc(), Version::Two, &AT_A_FIRST_RECORD);
    expect_faults(&rt, rt.alloc(), Version::One, &OLD_AT_A_FIRST_RECORD);
}

/// Words whose second record is at fault. In the last two rows it is cut.
const AT_A_LATER_RECORD: [Faulty; 8] = [
    (
        &[
            0xfe00_0007,
            0x2c00_0000,
            0x0000_0007,
            0x4000_0000,
            0x2c00_0000,
            0x0000_0008,
            0x4000_0000,
            0x0000_0000,
        ],
        WordFault::Mixed { at: 5 },
    ),
    (
        &[
            0xfe00_0007,
            0x2c00_0000,
            0x0000_0007,
            0x4000_0000,
            0x2c00_0000,
            0x0000_0007,
            0xc000_0000,
            0x0000_0000,
        ],
        WordFault::Mixed { at: 6 },
    ),
    (
        &[
            0xfe00_0007,
            0x2c00_0000,
            0x0000_0007,
            0x4000_0000,
            0x2c00_0000,
            0x0000_0007,
            0x4000_0001,
            0x0000_0000,
        ],
        WordFault::Mixed { at: 6 },
    ),
    (
        &[
            0xfe00_0008,
            0x2c00_0000,
            0x0000_0007,
            0x4000_0000,
            0xff00_0001,
            0x0000_0008,
            0x4000_0000,
            0x0100_0061,
        ],
        WordFault::BadTag { at: 4 },
    ),
    (
        &[
            0xfe00_0008,
            0x2c00_0000,
            0x0000_0007,
            0x4000_0000,
            0x0300_0001,
            0x0000_0007,
            0x4000_0000,
            0x0100_0061,
        ],
        WordFault::BadPadding { at: 7 },
    ),
    (
        &[
            0xfe00_0008,
            0x2c00_0000,
            0x0000_0007,
            0x4000_0000,
            0x0300_0005,
            0x0000_0007,
            0x4000_0000,
            0x0100_0061,
        ],
        WordFault::BadLength { at: 4 },
    ),
    (
        &[
            0xfe00_0005,
            0x2c00_0000,
            0x0000_0007,
            0x4000_0000,
            0x2c00_0000,
        ],
        WordFault::BadLength { at: 4 },
    ),
    (
        &[
            0xfe00_0006,
            0x2c00_0000,
            0x0000_0007,
            0x4000_0000,
            0x2c00_0000,
            0x0000_0007,
        ],
        WordFault::BadLength { at: 4 },
    ),
];

/// The same of version 1. In the last row it is cut.
const OLD_AT_A_LATER_RECORD: [Faulty; 6] = [
    (
        &[
            0xfe00_0006,
            0x2c00_0000,
            0x4000_0007,
            0x2c00_0000,
            0x4000_0008,
            0x0000_0000,
        ],
        WordFault::Mixed { at: 4 },
    ),
    (
        &[
            0xfe00_0006,
            0x2c00_0000,
            0x4000_0007,
            0x2c00_0000,
            0xc000_0007,
            0x0000_0000,
        ],
        WordFault::Mixed { at: 4 },
    ),
    (
        &[
            0xfe00_0006,
            0x2c00_0000,
            0x4000_0007,
            0xff00_0001,
            0x4000_0008,
            0x0100_0061,
        ],
        WordFault::BadTag { at: 3 },
    ),
    (
        &[
            0xfe00_0006,
            0x2c00_0000,
            0x4000_0007,
            0x0300_0001,
            0x4000_0007,
            0x0100_0061,
        ],
        WordFault::BadPadding { at: 5 },
    ),
    (
        &[
            0xfe00_0006,
            0x2c00_0000,
            0x4000_0007,
            0x0300_0005,
            0x4000_0007,
            0x0100_0061,
        ],
        WordFault::BadLength { at: 3 },
    ),
    (
        &[0xfe00_0004, 0x2c00_0000, 0x4000_0007, 0x2c00_0000],
        WordFault::BadLength { at: 3 },
    ),
];

#[test]
fn a_later_record_at_fault_is_told(rt: HostRuntime) {
    expect_faults(&rt, rt.alloc(), Version::Two, &AT_A_LATER_RECORD);
    expect_faults(&rt, rt.alloc(), Version::One, &OLD_AT_A_LATER_RECORD);
}
