//! A law: a function that does nothing, for what its clauses say.

ghost use Rattle.std.specs.Prelude.{◌≡◌};
ghost use Rattle.ring_layout.specs.declared.TheConstants.{END_MARK, FEWEST_WORDS, OVERRUN_DISTANCE, SEEK_DISTANCE, SEGMENTS, WRAP_MARK};
ghost use Rattle.ring_layout.specs.Places.{end_mark, fewest_words, overrun_distance, seek_distance, wrap_mark};

/// The constants that crates name are those of the definitions, in which a ring has eight segments.
pub fn constants_are_defined()
    ensures segments { SEGMENTS ≡ 8 }
    ensures fewest { FEWEST_WORDS ≡ fewest_words }
    ensures overrun { OVERRUN_DISTANCE ≡ overrun_distance }
    ensures seek { SEEK_DISTANCE ≡ seek_distance }
    ensures end { END_MARK ≡ end_mark }
    ensures wrap { WRAP_MARK ≡ wrap_mark }
{}
