//! Waits of a writer for others.

ghost use Rattle.std.specs.Prelude.{◌≡◌, ◌+◌, min};
ghost use Rattle.traffic_feed.specs.Feeding.{most_waits};

/// The most waits that a worker tells.
const MOST_WAITS: u64 = 1 << 56;

/// So many waits and more, up to the most that are told.
pub(crate) fn add_waits(busy: u64, waits: u64) -> u64
    ensures { result ≡ min (busy + waits) most_waits }
{
    busy.saturating_add(waits).min(MOST_WAITS)
}
