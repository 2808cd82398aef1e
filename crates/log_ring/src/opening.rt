//! A ring is opened with all its passes.

ghost use Rattle.std.specs.Prelude.{◌≡◌, ℕ, ◌+◌, ◌-◌, ◌*◌, ◌<◌, ◌≤◌, [], length, vec_len, IfOk};
ghost use Rattle.std.specs.List.{range_with_len};
ghost use Rattle.ring_layout.specs.Places.{end_mark};
ghost use Rattle.log_ring.specs.Ring.{RingSet, most_writers, most_readers};
ghost use Rattle.log_ring.specs.Writers.{new_writer, new_writers};
ghost use Rattle.log_ring.specs.Readers.{new_reader, new_passes};
ghost use Rattle.log_ring.specs.inside.Writing.{new_writer_views, first_view};
ghost use Rattle.log_ring.specs.inside.Reading.{reader_of};
ghost use Rattle.log_ring.specs.inside.Steps.{AreFirstWords, IsFirstSeat, IsReaderSeat, set_of};

use crate::reader::ReaderPass;
use crate::ring::{Ring, RingSeat};
use crate::rule::{OneReader, OneWriter, RingKey};
use crate::storing::{FIRST, WRITE_TOKEN};
use crate::writer::WriterPass;
use atomic_table::Table;
use log_model::NoMemory;
use ring_layout::{END_MARK, SEGMENTS, Shape, WORD};
use std::alloc::{AllocError, Global};

/// A ring, and all its passes.
#[derive(Drop)]
pub struct Opened {
    pub ring: Ring,
    pub writers: Vec<WriterPass>,
    pub readers: Vec<ReaderPass>,
}

/// The words of a table whose ring has no unit.
fn first_words(alloc: Global, shape: Shape) -> Result<Vec<u64>, AllocError>
    ensures { IfOk result (λ words. AreFirstWords shape words.items) }
{
    let mut words = vec![in alloc; 0; FIRST + SEGMENTS * shape.seg() as usize]?;
    words[WRITE_TOKEN] = 1;
    words[FIRST] = u64::from(END_MARK);
    Ok(words)
}

impl Ring {
    /// A ring with no unit, and the seat of all its writers and readers.
    fn of_shape(
        alloc: Global,
        shape: Shape,
        writers: u32,
        readers: u32,
    ) -> Result<(Ring, RingSeat), AllocError>
        requires some { 0 < writers }
        requires few { writers ≤ most_writers }
        ensures ring { IfOk result (λ made. (made.0.seg ≡ shape) × (made.0.writers ≡ writers) ×
            (made.0.readers ≡ readers)) }
        ensures seat { IfOk result
            (λ made. IsFirstSeat made.0 writers readers made.1.table_id made.1.me) }
    {
        let words = first_words(alloc, shape)?;
        let key = RingKey {
            seg: u64::from(shape.seg()),
            writers: u64::from(writers),
            readers: u64::from(readers),
        };
        let (table, seat) = Table::of_words(alloc, &words, &key)?;
        Ok((Ring { table, shape }, seat))
    }

    /// A pass for the first of the k writers for which the first seat stands.
    fn split_writer(&self, seat: &mut RingSeat, k: u32) -> WriterPass
        requires first { IsFirstSeat self.now k 0 seat.old.table_id seat.old.me }
        requires many { 1 < k }
        ensures pass { result ≡ new_writer self.now (self.now.writers - k) }
        ensures rest { IsFirstSeat self.now (k - 1) 0 seat.new.table_id seat.new.me }
    {
        let one = self.table.shared.split_seat::<OneWriter>(seat);
        WriterPass {
            seat: one,
            wraps: 0,
        }
    }

    /// The seat of the first of the readers for which the first seat stands.
    fn split_reader(&self, seat: &mut RingSeat, m: u32) -> RingSeat
        requires first { IsFirstSeat self.now self.now.writers m seat.old.table_id seat.old.me }
        requires some { 0 < m }
        ensures reader { IsReaderSeat result.me }
        ensures part { reader_of result.me.0 ≡ new_reader }
        ensures ring { set_of result.table_id result.me.0.ring ≡ self.now }
        ensures rest { IsFirstSeat self.now self.now.writers (m - 1) seat.new.table_id seat.new.me }
    {
        self.table.shared.split_seat::<OneReader>(seat)
    }

    /// A pass for each of the readers for which the first seat stands.
    fn split_readers(
        &self,
        alloc: Global,
        seat: &mut RingSeat,
        writers: u32,
        readers: u32,
    ) -> Result<Vec<ReaderPass>, AllocError>
        requires first { IsFirstSeat self.now self.now.writers readers seat.old.table_id seat.old.me }
        requires all { writers ≡ self.now.writers }
        ensures passes { IfOk result (λ passes. passes.items ≡ new_passes self.now readers) }
        ensures rest { IfOk result
            (λ _. IsFirstSeat self.now self.now.writers 0 seat.new.table_id seat.new.me) }
    {
        let size = WORD * self.shape.seg() as usize;
        let mut passes = Vec::with_capacity(alloc, readers as usize)?;
        for k in 0..readers {
            let bytes = vec![in alloc; 0; size]?;
            let one = self.split_reader(seat, readers - k);
            passes.push_reserved(ReaderPass::of_seat(one, u64::from(writers), bytes));
        }
        Ok(passes)
    }

    /// A ring of eight segments with no unit, and a pass for each of 1 to 17 writers and of 0 to 16 readers. All memory is
    /// taken here: 8 bytes for each word of the ring, 4 for each word of a segment in each reader, and the lists of passes.
    pub fn new(alloc: Global, shape: Shape, writers: u32, readers: u32) -> Result<Opened, NoMemory>
        requires some { 0 < writers }
        requires few { writers ≤ most_writers }
        requires few_readers { readers ≤ most_readers }
        ensures ring { IfOk result (λ opened. (opened.ring.seg ≡ shape) ×
            (opened.ring.writers ≡ writers) × (opened.ring.readers ≡ readers)) }
        ensures writers { IfOk result
            (λ opened. opened.writers.items ≡ new_writers opened.ring writers) }
        ensures readers { IfOk result
            (λ opened. opened.readers.items ≡ new_passes opened.ring readers) }
    {
        let mut passes = Vec::with_capacity(alloc, writers as usize)?;
        let (ring, mut seat) = Ring::of_shape(alloc, shape, writers, readers)?;
        let readers = ring.split_readers(alloc, &mut seat, writers, readers)?;
        for k in 1..writers {
            passes.push_reserved(ring.split_writer(&mut seat, writers - k + 1));
        }
        passes.push_reserved(WriterPass { seat, wraps: 0 });
        Ok(Opened {
            ring,
            writers: passes,
            readers,
        })
    }
}
