//! Segments, and where a unit is put.

ghost use Rattle.std.specs.Prelude.{◌≡◌, ◌≤◌, ◌<◌, ◌*◌, ◌/◌, ◌^◌, ◌↔◌, not, IfSome, IsSome, IsNone, OnSome};
ghost use Rattle.ring_layout.specs.Places.{IsSegment, end_at, fewest_words, last_tail, stays, start_at};

use std::marker::Model;

/// The fewest and the most words of a segment.
const LEAST_WORDS: u32 = 64;

const MOST_WORDS: u32 = 1_048_576;

/// The last tail that a ring has: 2^62.
const LAST_TAIL: u64 = 4_611_686_018_427_387_904;

/// How many words a segment has, from 64 to 1,048,576. Contracts see the number. A ring has eight segments.
///
/// Source: this project's choice.
#[derive(Clone, Copy, Debug, PartialEq, Eq)]
pub struct Shape {
    seg: u32,
}

impl Model for Shape {
    ghost use Rattle.std.specs.Prelude.{ℕ};
    ghost use Rattle.ring_layout.specs.Places.{IsSegment};

    ghost Value = { ℕ };

    ghost view = { λ s. s.seg };

    ghost invariant = { λ s. IsSegment s.seg };

    ghost inverse = { λ n. record { seg = n } };
}

/// Where a unit is put.
#[derive(Clone, Copy, Debug, PartialEq, Eq)]
pub struct Placed {
    /// The place of its first word.
    pub start: u64,
    /// The place behind its last word, which is the new tail.
    pub tail: u64,
    /// Whether it doesn't start at the old tail, but at the next lap.
    pub wraps: bool,
}

impl Shape {
    /// The shape with so many words in a segment; none outside 64 to 1,048,576.
    pub fn new(seg: u32) -> Option<Shape>
        ensures shape { IfSome result (λ shape. shape ≡ seg) }
        ensures accepted { IsSome result ↔ IsSegment seg }
    {
        if seg < LEAST_WORDS || seg > MOST_WORDS {
            return None;
        }
        Some(Shape { seg })
    }

    /// How many words a segment has.
    pub fn seg(&self) -> u32
        ensures { result ≡ self.now }
    {
        self.seg
    }
}

/// Where a unit of so many words is put at a tail; nowhere where the new tail would be above 2^62. A unit has four words
/// or more, and here at most a segment's.
pub fn place_after(shape: Shape, tail: u64, words: u32) -> Option<Placed>
    requires some { fewest_words ≤ words }
    requires fits { words ≤ shape }
    ensures start { IfSome result (λ placed. placed.start ≡ start_at shape tail words) }
    ensures tail { IfSome result (λ placed. placed.tail ≡ end_at shape tail words) }
    ensures wraps { IfSome result (λ placed. placed.wraps ≡ not (stays shape tail words)) }
    ensures accepted { IsSome result ↔ (end_at shape tail words ≤ last_tail) }
{
    if tail > LAST_TAIL {
        return None;
    }
    let lap = 8 * u64::from(shape.seg());
    let words = u64::from(words);
    let wraps = tail % lap + words >= lap;
    let start = if wraps { (tail / lap + 1) * lap } else { tail };
    let end = start + words;
    if end > LAST_TAIL {
        return None;
    }
    Some(Placed {
        start,
        tail: end,
        wraps,
    })
}

/// The segment of a place, from 0.
pub fn segment_of(shape: Shape, place: u64) -> u64
    ensures { result ≡ place / shape }
{
    place / u64::from(shape.seg())
}
