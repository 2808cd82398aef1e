//! Laws: functions that do nothing, for what their clauses say.

ghost use Rattle.std.specs.Prelude.{◌≡◌, Bool, true, List};
ghost use Rattle.vsl_record.specs.Unit.{Log};
ghost use Rattle.vsl_record.specs.Words.{unit_words};
ghost use Rattle.ring_layout.specs.declared.item.Item.{Item};
ghost use Rattle.ring_layout.specs.Items.{items_of};
ghost use Rattle.ring_layout.specs.History.{IsReadHistory, ReachesTail};
ghost use Rattle.log_ring.specs.Ring.{RingSet};
ghost use Rattle.log_ring.specs.Readers.{ReaderState, new_pass, history_taken};
ghost use Rattle.log_ring.specs.Closed.{IsDoneWith};
ghost use Rattle.run_sources.specs.Live.{LiveGave};

/// What a run met of a ring, from a new pass on, is what the pass took by the time the ring is closed: a history of the
/// ring's log, and up to its tail where the run met all.
pub fn items_are_the_history()
    ensures { (ring : RingSet) (pass : ReaderState) (log : Log) (met : List Item) (all : Bool) →
        LiveGave (new_pass ring) pass met all → IsDoneWith ring.seg log pass →
        (met ≡ items_of (history_taken pass)) ×
        IsReadHistory unit_words ring.seg log (history_taken pass) ×
        (all ≡ true → ReachesTail log (history_taken pass)) }
{}
