//! Rings and units for the tests.

ghost use Rattle.std.specs.Prelude.{◌≡◌, ◌<◌, ◌≤◌, ◌*◌};
ghost use Rattle.vsl_record.specs.Unit.{vxid_end};
ghost use Rattle.log_ring.specs.Writers.{AreWritersOf};
ghost use Rattle.log_ring.specs.Readers.{AreReadersOf};

use log_ring::{Opened, ReaderPass, Ring, WriterPass};
use ring_layout::Shape;
use std::alloc::Global;
use std::fmt::Debug;
use std::process::Abort;
use vsl_record::{Mark, Record, Unit, Vxid};
use vsl_tags::Tag;

/// The number of the tag VCL_Log.
const VCL_LOG: u8 = 24;

/// The two are the same. Each comparison of a test is this call, because each `assert_eq!` is a proof of its own.
pub fn same<T: PartialEq + Debug + Drop>(rt: &impl Abort, left: T, right: T) {
    assert_eq!(rt; left, right);
}

/// A writer of a ring, from the end.
#[tactic(auto, using(log_ring::proofs::PassLemmas::last_writer))]
pub fn one_writer(rt: &impl Abort, opened: &mut Opened) -> WriterPass
    requires { AreWritersOf opened.old.ring opened.old.writers.items }
    ensures writer { result.ring ≡ opened.new.ring }
    ensures writers { AreWritersOf opened.new.ring opened.new.writers.items }
    ensures readers { opened.new.readers ≡ opened.old.readers }
    ensures ring { opened.new.ring ≡ opened.old.ring }
{
    opened.writers.pop().expect(rt, "a writer")
}

/// A reader of a ring, from the end.
#[tactic(auto, using(log_ring::proofs::PassLemmas::last_reader))]
pub fn one_reader(rt: &impl Abort, opened: &mut Opened) -> ReaderPass
    requires { AreReadersOf opened.old.ring opened.old.readers.items }
    ensures reader { result.ring ≡ opened.new.ring }
    ensures ring { opened.new.ring ≡ opened.old.ring }
{
    opened.readers.pop().expect(rt, "a reader")
}

/// Segments of 64 words, the fewest.
pub fn least_shape(rt: &impl Abort) -> Shape
    ensures { result ≡ 64 }
{
    Shape::new(64).expect(rt, "64 words are a segment")
}

/// A ring of such segments, and its passes.
#[tactic(auto, using(log_ring::proofs::PassLemmas::are_writers, log_ring::proofs::PassLemmas::are_readers))]
pub fn open(rt: &impl Abort, alloc: Global, writers: u32, readers: u32) -> Opened
    requires some { 0 < writers }
    requires few { writers ≤ 17 }
    requires few_readers { readers ≤ 16 }
    ensures writers { AreWritersOf result.ring result.writers.items }
    ensures readers { AreReadersOf result.ring result.readers.items }
    ensures all { result.ring.writers ≡ writers }
{
    Ring::new(alloc, least_shape(rt), writers, readers).expect(rt, "memory")
}

/// A ring with one writer and one reader.
pub fn open_pair(rt: &impl Abort, alloc: Global) -> (Ring, WriterPass, ReaderPass)
    ensures writer { result.1.ring ≡ result.0 }
    ensures reader { result.2.ring ≡ result.0 }
{
    let mut opened = open(rt, alloc, 1, 1);
    let writer = one_writer(rt, &mut opened);
    let reader = one_reader(rt, &mut opened);
    (opened.ring, writer, reader)
}

/// A ring with two writers and a reader.
pub fn open_trio(rt: &impl Abort, alloc: Global) -> (Ring, WriterPass, WriterPass, ReaderPass)
    ensures first { result.1.ring ≡ result.0 }
    ensures second { result.2.ring ≡ result.0 }
    ensures reader { result.3.ring ≡ result.0 }
    ensures all { result.0.writers ≡ 2 }
{
    let mut opened = open(rt, alloc, 2, 1);
    let second = one_writer(rt, &mut opened);
    let first = one_writer(rt, &mut opened);
    let reader = one_reader(rt, &mut opened);
    (opened.ring, first, second, reader)
}

/// What the payload of a unit with this VXID is filled with.
pub fn filling(vxid: Vxid) -> u8 {
    (vxid % 251) as u8
}

/// A unit of one record, which has so many words: 4 for the heads of the unit and the record, and the payload's.
pub fn unit_of(rt: &impl Abort, alloc: Global, vxid: Vxid, words: u8) -> Unit
    requires { vxid < vxid_end }
{
    let size = 4 * words.saturating_sub(4) as usize;
    let payload = vec![in alloc; filling(vxid); size].expect(rt, "memory");
    let tag = Tag::from_number(VCL_LOG).expect(rt, "24 is a tag");
    let one = Record::new(alloc, tag, Mark::Client, payload.as_slice()).expect(rt, "a record");
    let records = Vec::from_array(alloc, [one]).expect(rt, "memory");
    Unit::new(vxid, Mark::Client, records).expect(rt, "a unit")
}
