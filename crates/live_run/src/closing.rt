//! What is left of workers and readers is joined.

ghost use Rattle.std.specs.Prelude.{◌≡◌, ◌≤◌, [], vec_len, vec_capacity};
ghost use Rattle.live_run.specs.inside.Opening.{counts_of, lefts_of};

use counter_segments::CounterPass;
use log_ring::LeftWriter;
use traffic_feed::Fed;

/// The passes to the ring and those to the counters, of what workers left, in the room that the caller took.
pub fn part(
    fed: Vec<Fed>,
    mut lefts: Vec<LeftWriter>,
    mut counts: Vec<CounterPass>,
) -> (Vec<LeftWriter>, Vec<CounterPass>)
    requires empty { (lefts.items ≡ []) × (counts.items ≡ []) }
    requires room { (vec_len fed ≤ vec_capacity lefts) × (vec_len fed ≤ vec_capacity counts) }
    ensures { (result.0.items ≡ lefts_of fed.items) × (result.1.items ≡ counts_of fed.items) }
{
    for one in fed {
        lefts.push_reserved(one.left);
        counts.push_reserved(one.counts);
    }
    (lefts, counts)
}
