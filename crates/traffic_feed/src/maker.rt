//! Making the records of requests.

ghost use Rattle.std.specs.Prelude.{◌≡◌, ◌+◌, ◌^◌, ◌<◌, ◌≤◌, ◌++◌, decimal, length, OnOk};
ghost use Rattle.std.specs.List.{All, flat_map, fold};
ghost use Rattle.vsl_tags.specs.Tags.{IsTag};
ghost use Rattle.vsl_record.specs.Payload.{most_payload};
ghost use Rattle.vsl_record.specs.Unit.{vxid_end};
ghost use Rattle.traffic_feed.specs.Made.{is_miss, is_said, mark_of, number_text, request_lines, row_lines, sizes_of, vxid_of};
ghost use Rattle.traffic_feed.specs.inside.Gathering.{nothing, stepped};
ghost use Rattle.traffic_feed.specs.inside.Making.{request_end, row_count};

use crate::gathering::Gathering;
use crate::requests::{Number, ROWS, Row, Whose};
use itoa::Buffer;
use log_model::NoMemory;
use raw_records::LineRead;
use ring_layout::Shape;
use std::alloc::Global;
use vsl_record::{Mark, Vxid};
use vsl_tags::Tag;

/// What was made so far.
#[derive(Drop)]
pub(crate) struct Maker {
    /// What was gathered of the lines.
    pub(crate) gathering: Gathering,
    /// The text of a payload.
    text: Vec<u8>,
}

/// The tag with this number, which is a tag's.
fn tag_with(number: u8) -> Tag
    requires { IsTag number }
    ensures { result ≡ number }
{
    match Tag::from_number(number) {
        Some(tag) => tag,
        None => unreachable!(),
    }
}

/// Whether a record is said of a request for which x was drawn.
fn is_said(whose: Whose, x: u32) -> bool
    ensures { result ≡ is_said whose (is_miss x) }
{
    match whose {
        Whose::Request | Whose::Session => true,
        Whose::Fetch | Whose::Miss => x % 4 == 0,
        Whose::Hit => x % 4 != 0,
    }
}

/// The VXID of a record of the k-th request.
fn vxid_of(whose: Whose, k: u32) -> Vxid
    requires { k < request_end }
    ensures vxid { result ≡ vxid_of whose k }
    ensures in_range { result < vxid_end }
{
    match whose {
        Whose::Fetch => 3 * u64::from(k) + 3,
        Whose::Request | Whose::Miss | Whose::Hit => 3 * u64::from(k) + 2,
        Whose::Session => 3 * u64::from(k) + 1,
    }
}

/// The mark of a record.
fn mark_of(whose: Whose) -> Mark
    ensures { result ≡ mark_of whose }
{
    match whose {
        Whose::Fetch => Mark::Backend,
        _ => Mark::Client,
    }
}

/// Adds a number in decimal digits.
fn put_decimal(text: &mut Vec<u8>, n: u64) -> Result<(), NoMemory>
    ensures { OnOk result (text.new.items ≡ text.old.items ++ decimal n) }
{
    let mut buffer = Buffer::new();
    text.extend_from_slice(buffer.format(n).as_bytes())?;
    Ok(())
}

/// Adds the counts of bytes of an answer, which has so many of headers.
fn put_sizes(text: &mut Vec<u8>, headers: u32, x: u32) -> Result<(), NoMemory>
    requires { headers ≤ 1000 }
    ensures { OnOk result (text.new.items ≡ text.old.items ++ sizes_of headers x) }
{
    put_decimal(text, u64::from(x % 1000))?;
    text.push(b' ')?;
    put_decimal(text, u64::from(x % 1000 + headers))
}

/// Adds a number of the k-th request, for which x was drawn.
fn put_number(text: &mut Vec<u8>, number: Number, k: u32, x: u32) -> Result<(), NoMemory>
    requires { k < request_end }
    ensures { OnOk result (text.new.items ≡ text.old.items ++ number_text number k x) }
{
    match number {
        Number::Nothing => Ok(()),
        Number::VxidOf(whose) => put_decimal(text, vxid_of(whose, k)),
        Number::Seconds => put_decimal(text, u64::from(1_650_000_000 + k)),
        Number::Item => put_decimal(text, u64::from(x % 100)),
        Number::SizesFetched => put_sizes(text, 180, x),
        Number::SizesSent => put_sizes(text, 200, x),
    }
}

impl Maker {
    /// Nothing made yet.
    pub fn new(alloc: Global, reclen: u32, shape: Shape) -> Maker
        requires { reclen ≤ most_payload }
        ensures { result.gathering ≡ nothing reclen shape }
    {
        Maker {
            gathering: Gathering::new(alloc, reclen, shape),
            text: Vec::new(alloc),
        }
    }

    /// The record of a row, where it is said of the k-th request.
    fn say(
        &mut self,
        whose: Whose,
        tag: u8,
        before: &[u8],
        number: Number,
        behind: &[u8],
        k: u32,
        x: u32,
    ) -> Result<(), NoMemory>
        requires few { k < request_end }
        requires tag { IsTag tag }
        requires cuts { self.old.gathering.cuts + 1 < 2 ^ 64 }
        ensures state { OnOk result
            (self.new.gathering ≡ fold stepped self.old.gathering
            (row_lines k x whose tag before.now number behind.now)) }
        ensures few_cuts { OnOk result (self.new.gathering.cuts ≤ self.old.gathering.cuts + 1) }
    {
        if !is_said(whose, x) {
            return Ok(());
        }
        self.text.clear();
        self.text.extend_from_slice(before)?;
        put_number(&mut self.text, number, k, x)?;
        self.text.extend_from_slice(behind)?;
        self.gathering.step(LineRead::Record {
            vxid: vxid_of(whose, k),
            tag: tag_with(tag),
            mark: mark_of(whose),
            payload: &self.text,
        })
    }

    /// The records of rows.
    fn say_all(&mut self, rows: &[Row], k: u32, x: u32) -> Result<(), NoMemory>
        requires few { k < request_end }
        requires tags { All (λ row. IsTag row.1) rows.now }
        requires cuts { self.old.gathering.cuts + length rows.now < 2 ^ 64 }
        ensures state { OnOk result (self.new.gathering ≡ fold stepped self.old.gathering
            (flat_map (λ row. row_lines k x row.0 row.1 row.2.now row.3 row.4.now) rows.now)) }
        ensures few_cuts { OnOk result
            (self.new.gathering.cuts ≤ self.old.gathering.cuts + length rows.now) }
    {
        for row in rows {
            self.say(row.0, row.1, row.2, row.3, row.4, k, x)?;
        }
        Ok(())
    }

    /// All that is logged of the k-th request, for which x was drawn.
    pub fn make(&mut self, k: u32, x: u32) -> Result<(), NoMemory>
        requires few { k < request_end }
        requires cuts { self.old.gathering.cuts + row_count < 2 ^ 64 }
        ensures state { OnOk result
            (self.new.gathering ≡ fold stepped self.old.gathering (request_lines k x)) }
        ensures few_cuts { OnOk result
            (self.new.gathering.cuts ≤ self.old.gathering.cuts + row_count) }
    {
        self.say_all(&ROWS, k, x)
    }
}
