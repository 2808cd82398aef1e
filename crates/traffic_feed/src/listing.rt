//! Reading a listing.

ghost use Rattle.std.specs.Prelude.{◌≡◌, ◌⊎◌, ◌+◌, ◌/◌, ◌<◌, ◌≤◌, ◌∷◌, ℕ, length, IfOk};
ghost use Rattle.std.specs.List.{All};
ghost use Rattle.vsl_record.specs.Payload.{most_payload};
ghost use Rattle.vsl_record.specs.Unit.{Log};
ghost use Rattle.traffic_feed.specs.Batches.{IsWithin};
ghost use Rattle.raw_records.specs.Lines.{IsFirstBad};
ghost use Rattle.traffic_feed.specs.Listing.{IsListing, record_count, word_count};

use crate::fault::ListFault;
use crate::gathering::Gathering;
use crate::units::Units;
use raw_records::{TagCache, first_line, read_line};
use ring_layout::Shape;
use std::alloc::Global;

/// What a listing has. Contracts see the units as a list.
#[derive(Drop)]
pub struct Listing {
    /// The units, in order.
    pub units: Units,
    /// How often a batch was cut.
    pub cuts: u64,
}

/// Reads a listing: lines as `varnishlog -g raw` prints them, as `32770 ReqURL c /shop`, blank lines between batches, and
/// comments. Of a payload the first `reclen` bytes are kept, and no more than a unit of one record has room for in a segment.
///
/// Source: varnishlog(1), `-g raw`. What else a listing has, and where a unit ends, are this project's choice.
pub fn read_listing(
    alloc: Global,
    bytes: &[u8],
    reclen: u32,
    shape: Shape,
) -> Result<Listing, ListFault>
    requires { reclen ≤ most_payload }
    ensures read { IfOk result
        (λ listing. IsListing bytes.now reclen shape listing.units listing.cuts) }
    ensures refused { (line : ℕ) → result ≡ Err (ListFault.BadLine line) →
        IsFirstBad bytes.now line }

    ensures only { (units : Log) (cuts : ℕ) → IsListing bytes.now reclen shape units cuts →
        (result ≡ Ok (record { units = units; cuts = cuts })) ⊎ (result ≡ Err ListFault.NoMemory) }
    ensures faulty { (line : ℕ) → IsFirstBad bytes.now line →
        (result ≡ Err (ListFault.BadLine line)) ⊎ (result ≡ Err ListFault.NoMemory) }

    ensures within { IfOk result (λ listing. All (IsWithin shape) listing.units) }
    ensures few_records { IfOk result
        (λ listing. record_count listing.units ≤ (length bytes.now + 1) / 8) }
    ensures few_words { IfOk result (λ listing. word_count listing.units ≤ length bytes.now + 1) }
    ensures few_cuts { IfOk result (λ listing. listing.cuts ≤ record_count listing.units) }
{
    let mut gathering = Gathering::new(alloc, reclen, shape);
    let mut tags = TagCache::new();
    let mut rest = bytes;
    let mut line: u64 = 0;
    while !rest.is_empty() {
        let (text, behind) = first_line(rest);
        line += 1;
        let Ok(read) = read_line(text, &mut tags) else {
            return Err(ListFault::BadLine { line });
        };
        gathering.step(read)?;
        rest = behind;
    }
    Ok(gathering.finish()?)
}
