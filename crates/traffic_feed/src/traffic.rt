//! Making traffic.

ghost use Rattle.std.specs.Prelude.{◌≡◌, ◌*◌, ◌<◌, ◌≤◌, IfOk};
ghost use Rattle.std.specs.List.{All};
ghost use Rattle.vsl_record.specs.Payload.{most_payload};
ghost use Rattle.traffic_feed.specs.Batches.{IsWithin};
ghost use Rattle.traffic_feed.specs.Listing.{record_count, word_count};
ghost use Rattle.traffic_feed.specs.Made.{made_units, made_cuts};

use crate::listing::Listing;
use crate::maker::Maker;
use crate::turns::Turns;
use log_model::NoMemory;
use ring_layout::Shape;
use std::alloc::Global;

/// Makes the traffic of so many requests from a seed: each a request of a client with its session, and, where the draw says that it
/// is a miss, the request to the backend before it. The k-th request, from 0, has the VXID 3 k + 2. Of a payload the first `reclen`
/// bytes are kept, and units are cut as those of a listing. The first request of seed 7 is a hit of `/item/99`, whose body has 599
/// bytes.
///
/// Source: this project's choice.
pub fn generate(
    alloc: Global,
    count: u32,
    seed: u32,
    reclen: u32,
    shape: Shape,
) -> Result<Listing, NoMemory>
    requires some { 0 < count }
    requires most { count ≤ 100000 }
    requires reclen { reclen ≤ most_payload }
    ensures units { IfOk result (λ listing. listing.units ≡ made_units count seed reclen shape) }
    ensures cuts { IfOk result (λ listing. listing.cuts ≡ made_cuts count seed reclen shape) }
    ensures within { IfOk result (λ listing. All (IsWithin shape) listing.units) }
    ensures few_records { IfOk result (λ listing. record_count listing.units ≤ 25 * count) }
    ensures few_words { IfOk result (λ listing. word_count listing.units ≤ 256 * count) }
    ensures few_cuts { IfOk result (λ listing. listing.cuts ≤ record_count listing.units) }
{
    let mut maker = Maker::new(alloc, reclen, shape);
    let mut turns = Turns::new(seed);
    for k in 0..count {
        maker.make(k, turns.draw())?;
    }
    Ok(maker.gathering.finish()?)
}
