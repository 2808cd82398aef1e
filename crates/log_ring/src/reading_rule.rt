//! What the loads of a reader are, as the proofs see it. No value of these types is made.

use crate::rule::View;
use atomic_table::Play;

/// A load of the number of writers that left.
pub struct LoadingFinished;

impl Play<u64, View> for LoadingFinished {
    ghost use Rattle.log_ring.specs.inside.Reading.{Reads, LoadsFinished};

    ghost then = { Reads LoadsFinished };
}

/// A load of the first word at the cursor's place.
pub struct LoadingHead;

impl Play<u64, View> for LoadingHead {
    ghost use Rattle.log_ring.specs.inside.Reading.{Reads, LoadsHead};

    ghost then = { Reads LoadsHead };
}

/// A load of a further word.
pub struct LoadingMore;

impl Play<u64, View> for LoadingMore {
    ghost use Rattle.log_ring.specs.inside.Reading.{Reads, LoadsMore};

    ghost then = { Reads LoadsMore };
}

/// A check where the end mark was found.
pub struct CheckingEnd;

impl Play<u64, View> for CheckingEnd {
    ghost use Rattle.log_ring.specs.inside.Reading.{Reads, Checks, FindsEnd};

    ghost then = { Reads (Checks FindsEnd) };
}

/// A check where the wrap mark was found.
pub struct CheckingLap;

impl Play<u64, View> for CheckingLap {
    ghost use Rattle.log_ring.specs.inside.Reading.{Reads, Checks, FindsLap};

    ghost then = { Reads (Checks FindsLap) };
}

/// A check where a unit was copied.
pub struct CheckingUnit;

impl Play<u64, View> for CheckingUnit {
    ghost use Rattle.vsl_record.specs.Words.{unit_words};
    ghost use Rattle.log_ring.specs.inside.Reading.{Reads, Checks, FindsUnit};

    ghost then = { Reads (Checks (FindsUnit unit_words)) };
}

/// A check where another word was found.
pub struct CheckingNothing;

impl Play<u64, View> for CheckingNothing {
    ghost use Rattle.log_ring.specs.inside.Reading.{Reads, Checks, FindsNothing};

    ghost then = { Reads (Checks FindsNothing) };
}

/// A check of a cursor that was overrun.
pub struct CheckingAgain;

impl Play<u64, View> for CheckingAgain {
    ghost use Rattle.log_ring.specs.inside.Reading.{Reads, ChecksAgain};

    ghost then = { Reads ChecksAgain };
}

/// A load of the counter before a cursor seeks.
pub struct Looking;

impl Play<u64, View> for Looking {
    ghost use Rattle.log_ring.specs.inside.Reading.{Reads, Looks};

    ghost then = { Reads Looks };
}

/// A load of a segment's start.
pub struct LoadingStart;

impl Play<u64, View> for LoadingStart {
    ghost use Rattle.log_ring.specs.inside.Reading.{Reads, LoadsStart};

    ghost then = { Reads LoadsStart };
}

/// A load of the number of a segment's first unit.
pub struct LoadingNumber;

impl Play<u64, View> for LoadingNumber {
    ghost use Rattle.log_ring.specs.inside.Reading.{Reads, LoadsNumber};

    ghost then = { Reads LoadsNumber };
}

/// A check of a cursor that seeks.
pub struct Seeking;

impl Play<u64, View> for Seeking {
    ghost use Rattle.log_ring.specs.inside.Reading.{Reads, Seeks};

    ghost then = { Reads Seeks };
}
