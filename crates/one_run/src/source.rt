//! Where a run takes its items from.

ghost use Rattle.std.specs.Prelude.{◌≡◌, ℕ, Bool, true, false, List, [], ◌++◌, IfOk};
ghost use Rattle.vio.specs.World.{Seen};
ghost use Rattle.vio.specs.Calls.{Call, Did, AreOn};
ghost use Rattle.one_run.specs.Run.{AtReads, CameTo, Made, asked_of, has_come, is_next_quiet};
ghost use Rattle.ring_layout.specs.declared.item.Item.{Item};

use log_model::Halt;
use ring_layout::Item;
use vio::World;

/// What a source that never stops with a fault has for one.
#[derive(Clone, Copy)]
pub enum Never {}

/// A cursor over the items of a log. A run knows no more of its input than this.
pub trait Source: Drop {
    /// Why it stops.
    type Fault: Drop;

    /// By these calls these items came, from a source on until a later one; whether they are all.
    ghost gave: { Self → Self → List Call → List Item → Bool → Type 0 };

    /// By these calls these items came, and then it stopped so, in a world.
    ghost stopped: { Self → Self.Fault → List Call → List Item → Seen → Type 0 };

    /// By these calls these items came, and then there was no memory, from a source on until a later one.
    ghost starved: { Self → Self → List Call → List Item → Type 0 };

    /// The handles that are read.
    ghost reads: { Self → List ℕ };

    /// By these calls these items came, and they are all that lie whole in what was read: so it is when more is read.
    ghost asks: { Self → List Call → List Item → Type 0 };

    /// It may be asked.
    ghost is_ready: { Self → Type 0 };

    /// What comes next is at hand: nothing is read for it, and it has no message.
    ghost at_hand: { Self → Bool };

    /// Whether what comes next is at hand.
    fn is_at_hand(&self) -> bool
        ensures hand { result ≡ at_hand self.now };

    /// Gives the next item; none at the end.
    fn next<W: World>(&mut self, world: &mut W) -> Result<Option<Item>, Halt<Self::Fault>>
        requires ready { is_ready self.old }
        ensures came { (start : Self) (calls : List Call) (met : List Item) →
            gave start self.old calls met false →
            Made (has_come result) (asked_of (at_hand self.old) (reads start)) []
            (λ more. AtReads (λ part. asks start (calls ++ part) met) more ×
            CameTo (λ now all. gave start self.new (calls ++ more) now all)
            (λ fault now. stopped start fault (calls ++ more) now (W.seen world.new))
            (λ now. starved start self.new (calls ++ more) now) result met) (W.seen world.old)
            (W.seen world.new) }
        ensures quiet { at_hand self.old ≡ true →
            IfOk result (λ next. is_next_quiet next ≡ true) }
        ensures ready { IfOk result (λ _. is_ready self.new) };

    /// Takes back an item that isn't needed: its memory may serve those that come.
    fn give_back(&mut self, _item: Item)
        ensures same { self.new ≡ self.old }
    {}

    /// What is written changes nothing of what came.
    ghost stays: { (start now : Self) (calls more : List Call) (met : List Item) (all : Bool)
        (writes : List ℕ) → gave start now calls met all → AreOn [] writes more →
        gave start now (calls ++ more) met all };

    /// And nothing of how it stopped.
    ghost stopped_stays: { (start : Self) (fault : Self.Fault) (calls more : List Call)
        (met : List Item) (writes : List ℕ) (s t : Seen) → stopped start fault calls met s →
        AreOn [] writes more → Did more s t → stopped start fault (calls ++ more) met t };
}
