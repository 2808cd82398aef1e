//! What the shared words are, as the proofs see it. No value of these types is made.

ghost use Rattle.std.specs.Prelude.{[]};
ghost use Rattle.vsl_record.specs.Unit.{LogUnit};

use atomic_table::{Join, Play, Split, TableRule};
use ring_layout::HistoryItem;
use std::collections::LinkedList;
use std::marker::{Brand, PhantomData};
use vsl_record::Unit;

/// What a ring is told when it is made.
#[derive(Clone, Copy)]
pub struct RingKey {
    /// How many words a segment has.
    pub seg: u64,
    pub writers: u64,
    pub readers: u64,
}

/// What one writer put: each unit beside the tail at which it was put.
pub struct WriterView {
    /// The writer's number, from 0.
    pub number: u64,
    pub entries: LinkedList<(u64, Unit)>,
}

/// A put that is in progress.
pub struct Put {
    /// The tail that it found.
    pub tail: u64,
    pub unit: Unit,
    /// How many units the log has, once that is loaded.
    pub units: Option<u64>,
    /// The counter, as it stands.
    pub counter: u64,
    /// The segment whose start is stored next.
    pub start: u64,
    /// The segment whose first unit's number is stored next.
    pub numbered: u64,
    /// The number of the unit's word that is stored next.
    pub word: u64,
    /// 1 once the end mark is stored.
    pub mark: u64,
    /// 1 once the unit is counted.
    pub counted: u64,
}

/// How far a put has come.
pub enum Progress {
    /// There is none.
    Free,
    /// The unit is being stored.
    Storing(Put),
    /// The unit is in the log, and the write token isn't released yet.
    Stored(Put),
}

/// What a reader loaded and didn't check yet.
pub enum Unchecked {
    Nothing,
    /// The words from the cursor's place on.
    Words(LinkedList<u64>),
    /// A segment, and the word that keeps its start.
    Start(u64, u64),
    /// The same, and the word that keeps its first unit's number.
    Numbered(u64, u64, u64),
}

/// What a load found.
pub enum Observation {
    /// The counter.
    CounterSeen(u64),
    /// The number of writers that had left.
    FinishedSeen(u64),
    /// The cursor's place, and the word there.
    WordSeen(u64, u64),
    /// A segment, and the word that keeps its start.
    StartSeen(u64, u64),
    /// A segment, and the word that keeps its first unit's number.
    NumberSeen(u64, u64),
}

/// One reader.
pub struct ReaderView {
    pub place: u64,
    /// How many units of the log stand before the place.
    pub number: u64,
    /// The segment where the cursor was overrun.
    pub lost: Option<u64>,
    /// What was taken, the newest first.
    pub items: LinkedList<HistoryItem<Unit>>,
    pub unchecked: Unchecked,
    /// The counter that was loaded last.
    pub loaded: u64,
    /// The number of writers that had left, as it was loaded last.
    pub finished_seen: u64,
    /// What its loads found, but for a unit's words behind the first; the newest first.
    pub observed: LinkedList<Observation>,
    /// Whether it answered that nothing more comes, and took or met nothing since.
    pub ended: bool,
}

/// What a seat says of itself.
pub struct View {
    /// Of which ring it is.
    pub ring: RingKey,
    /// The writers for which it stands.
    pub writers: LinkedList<WriterView>,
    /// How many of them left.
    pub finished: u64,
    pub progress: Progress,
    /// The greatest tail that it found.
    pub found: u64,
    /// How often it found the write token taken.
    pub busy: u64,
    /// The readers for which it stands.
    pub readers: LinkedList<ReaderView>,
    /// The log, once the ring is closed.
    pub log: LinkedList<Unit>,
}

/// The words hold one log.
pub struct RingRule;

impl TableRule<u64, View, RingKey> for RingRule {
    ghost use Rattle.vsl_record.specs.Words.{unit_words};
    ghost use Rattle.log_ring.specs.inside.Rule.{HoldsOneLog};
    ghost use Rattle.log_ring.specs.inside.Writing.{first_view};

    ghost holds = { HoldsOneLog unit_words };

    ghost first = { first_view };
}

/// The unit that a call puts, for the proofs alone. A step has no operand for it.
pub trait Coming {
    ghost unit: { LogUnit };
}

impl Coming for Brand {
    ghost use Rattle.vsl_record.specs.declared.mark.Mark.TheVariants.{Plain};

    ghost unit = { record { vxid = 0; mark = Plain; records = [] } };
}

/// A swap of the write token, with a unit to be put.
pub struct Acquiring<N> {
    of: PhantomData<N>,
}

impl<N: Coming> Play<u64, View> for Acquiring<N> {
    ghost use Rattle.vsl_record.specs.Words.{unit_words};
    ghost use Rattle.log_ring.specs.inside.Writing.{Acquires};

    ghost then = { Acquires unit_words N.unit };
}

/// A load of the number of units of the log.
pub struct LoadingCount;

impl Play<u64, View> for LoadingCount {
    ghost use Rattle.log_ring.specs.inside.Writing.{LoadsCount};

    ghost then = { LoadsCount };
}

/// A store of the counter.
pub struct Announcing;

impl Play<u64, View> for Announcing {
    ghost use Rattle.log_ring.specs.inside.Writing.{Makes, after_announce};

    ghost then = { Makes after_announce };
}

/// A store of a segment's start.
pub struct Starting;

impl Play<u64, View> for Starting {
    ghost use Rattle.log_ring.specs.inside.Writing.{Makes, after_start};

    ghost then = { Makes (λ _. after_start) };
}

/// A store of the number of a segment's first unit.
pub struct Numbering;

impl Play<u64, View> for Numbering {
    ghost use Rattle.log_ring.specs.inside.Writing.{Makes, after_number};

    ghost then = { Makes (λ _. after_number) };
}

/// A store of a word of the unit that isn't the last.
pub struct Wording;

impl Play<u64, View> for Wording {
    ghost use Rattle.log_ring.specs.inside.Writing.{Makes, after_word};

    ghost then = { Makes (λ _. after_word) };
}

/// A store of the end mark.
pub struct Marking;

impl Play<u64, View> for Marking {
    ghost use Rattle.log_ring.specs.inside.Writing.{Makes, after_mark};

    ghost then = { Makes (λ _. after_mark) };
}

/// A store of the number of units of the log.
pub struct CountingUnit;

impl Play<u64, View> for CountingUnit {
    ghost use Rattle.log_ring.specs.inside.Writing.{Makes, after_counting};

    ghost then = { Makes (λ _. after_counting) };
}

/// The store of the word at the old tail: the unit enters the log.
pub struct Publishing;

impl Play<u64, View> for Publishing {
    ghost use Rattle.log_ring.specs.inside.Writing.{Makes, after_publish};

    ghost then = { Makes (λ _. after_publish) };
}

/// A store of the write token.
pub struct Releasing;

impl Play<u64, View> for Releasing {
    ghost use Rattle.log_ring.specs.inside.Writing.{Makes, after_release};

    ghost then = { Makes (λ _. after_release) };
}

/// One more to the number of writers that left.
pub struct Leaving;

impl Play<u64, View> for Leaving {
    ghost use Rattle.log_ring.specs.inside.Writing.{Makes, after_leave};

    ghost then = { Makes (λ _. after_leave) };
}

/// A load by the seat that stands for all writers: it gets the log.
pub struct Settling;

impl Play<u64, View> for Settling {
    ghost use Rattle.vsl_record.specs.Words.{unit_words};
    ghost use Rattle.log_ring.specs.inside.Closing.{Settles};

    ghost then = { Settles unit_words };
}

/// A seat gives its first writer to a new seat.
pub struct OneWriter;

impl Split<View> for OneWriter {
    ghost use Rattle.log_ring.specs.inside.Writing.{without_writer, one_writer};

    ghost left = { without_writer };

    ghost right = { one_writer };
}

/// A seat gives its first reader to a new seat.
pub struct OneReader;

impl Split<View> for OneReader {
    ghost use Rattle.log_ring.specs.inside.Writing.{without_reader, one_reader};

    ghost left = { without_reader };

    ghost right = { one_reader };
}

/// A seat takes in the writers and the readers of another.
pub struct Together;

impl Join<View> for Together {
    ghost use Rattle.log_ring.specs.inside.Writing.{both_views, no_view};

    ghost both = { both_views };

    ghost spent = { no_view };
}
