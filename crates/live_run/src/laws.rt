//! Laws: functions that do nothing, for what their clauses say.

ghost use Rattle.std.specs.Prelude.{◌≡◌, ◌+◌, ℕ, List, slice_get};
ghost use Rattle.std.specs.List.{sum_by};
ghost use Rattle.log_model.specs.Interleaving.{IsInterleaving};
ghost use Rattle.vsl_record.specs.Unit.{Log};
ghost use Rattle.traffic_feed.specs.declared.listing.Listing.{Listing};
ghost use Rattle.traffic_feed.specs.Counted.{causes, cut_raise, unit_share, wait_raise, wrap_raise};
ghost use Rattle.live_run.specs.Runs.{feeds_of, live_value};

/// The counters are those of the log: what each comes to by the listings is a sum over the units of any log that interleaves
/// them, whatever the threads' order, with the listings' cuts, the units that wrapped and the waits.
pub fn counts_are_of_the_log()
    ensures { (listings : List Listing) (log : Log) (which waits wraps : ℕ) →
        IsInterleaving log (feeds_of listings) →
        live_value which listings waits wraps ≡ sum_by (unit_share which) log
        + (sum_by (λ l. cut_raise (slice_get causes which) l.cuts) listings +
        (wrap_raise (slice_get causes which) wraps + wait_raise (slice_get causes which) waits)) }
{}
