//! Laws of stated schedules, over every segment, order and feeds. These functions do nothing.

ghost use Rattle.std.specs.Prelude.{◌≡◌, ℕ, List, Option, None};
ghost use Rattle.std.specs.List.{All, flat_map};
ghost use Rattle.log_model.specs.Interleaving.{IsInterleaving};
ghost use Rattle.vsl_record.specs.Unit.{LogUnit, Log};
ghost use Rattle.vsl_record.specs.Words.{unit_words};
ghost use Rattle.ring_layout.specs.declared.history.HistoryItem.{HistoryItem};
ghost use Rattle.ring_layout.specs.Places.{IsSegment, AreFit};
ghost use Rattle.ring_layout.specs.History.{IsReadHistory, ReachesTail};
ghost use Rattle.feed_schedule.specs.Schedule.{IsScheduled};
ghost use Rattle.feed_schedule.specs.Unread.{IsUnread};

/// The law that each schedule of feeds of fit units ends, and that a schedule ends in one way.
pub fn every_schedule_ends()
    ensures ends { (seg : ℕ) (order : Option ℕ) (feeds : List Log) → IsSegment seg →
        All (AreFit unit_words seg) feeds →
        (log : Log) × (history : List (HistoryItem LogUnit)) ×
        IsScheduled seg order feeds log history }
    ensures one_way { (seg : ℕ) (order : Option ℕ) (feeds : List Log) (log other_log : Log)
        (history other_history : List (HistoryItem LogUnit)) →
        IsScheduled seg order feeds log history →
        IsScheduled seg order feeds other_log other_history →
        (log ≡ other_log) × (history ≡ other_history) }
{}

/// The law that the log is an interleaving of the feeds, and feed after feed it is the feeds in order; and that what the reader took, where their units are fit, is a read history of the whole log and reaches its tail.
pub fn schedules_are_read_whole()
    ensures interleaved { (seg : ℕ) (order : Option ℕ) (feeds : List Log) (log : Log)
        (history : List (HistoryItem LogUnit)) →
        IsScheduled seg order feeds log history → IsInterleaving log feeds }
    ensures in_order { (seg : ℕ) (feeds : List Log) (log : Log)
        (history : List (HistoryItem LogUnit)) →
        IsScheduled seg None feeds log history → log ≡ flat_map (λ feed. feed) feeds }
    ensures read { (seg : ℕ) (order : Option ℕ) (feeds : List Log) (log : Log)
        (history : List (HistoryItem LogUnit)) → IsSegment seg → All (AreFit unit_words seg) feeds →
        IsScheduled seg order feeds log history → IsReadHistory unit_words seg log history }
    ensures to_the_tail { (seg : ℕ) (order : Option ℕ) (feeds : List Log) (log : Log)
        (history : List (HistoryItem LogUnit)) → IsSegment seg → All (AreFit unit_words seg) feeds →
        IsScheduled seg order feeds log history → ReachesTail log history }
{}

/// The law that each schedule of writers that nobody reads ends, in one way, and that its log is an interleaving of the feeds, and feed after feed it is the feeds in order.
pub fn every_writing_ends()
    ensures ends { (order : Option ℕ) (feeds : List Log) → (log : Log) × IsUnread order feeds log }
    ensures one_way { (order : Option ℕ) (feeds : List Log) (log other : Log) →
        IsUnread order feeds log → IsUnread order feeds other → log ≡ other }
    ensures interleaved { (order : Option ℕ) (feeds : List Log) (log : Log) →
        IsUnread order feeds log → IsInterleaving log feeds }
    ensures in_order { (feeds : List Log) (log : Log) → IsUnread None feeds log →
        log ≡ flat_map (λ feed. feed) feeds }
{}
