//! A unit is copied word by word.

ghost use Rattle.std.specs.Prelude.{◌≡◌, ℕ, ◌+◌, ◌*◌, ◌%◌, ◌<◌, ◌≤◌, [], ◌∷◌, length, take, None};
ghost use Rattle.vsl_record.specs.Words.{header_mark, words_in};
ghost use Rattle.ring_layout.specs.Places.{last_tail};
ghost use Rattle.log_ring.specs.declared.rule.Unchecked.TheVariants.{Words};
ghost use Rattle.log_ring.specs.inside.Reading.{reader_of};
ghost use Rattle.log_ring.specs.inside.Steps.{IsReadingOf, HasCopied};

use crate::pause::{Pause, stop};
use crate::ring::{Ring, RingSeat};
use ring_layout::write_word;

impl Ring {
    /// Copies the words of the unit at a cursor's place, whose header was loaded.
    pub(crate) fn copy<P: Pause>(
        &self,
        seat: &mut RingSeat,
        bytes: &mut [u8],
        place: u64,
        head: u32,
        count: u64,
        pause: &mut P,
        step: &mut u64,
    )
        requires reader { IsReadingOf self.now seat.old.table_id seat.old.me }
        requires place { place ≡ (reader_of seat.old.me.0).place }
        requires low { place ≤ last_tail }
        requires copied { (reader_of seat.old.me.0).unchecked ≡ Words (head ∷ []) }
        requires head { head ≡ header_mark + count }
        requires some { 0 < count }
        requires in_lap { place % (8 * self.now.seg) + count < 8 * self.now.seg }
        requires room { 4 * count ≤ length bytes.old }
        ensures same { seat.new.table_id ≡ seat.old.table_id }
        ensures copied { HasCopied head count (words_in bytes.new) seat.old.me seat.new.me }
        ensures size { length bytes.new ≡ length bytes.old }
    {
        let at = self.word_of(place);
        write_word(bytes, 0, head);
        for word in 1..count {
            stop(pause, step);
            let next = self.load_more(seat, at + word as usize);
            write_word(bytes, word as usize, next as u32);
        }
    }
}
