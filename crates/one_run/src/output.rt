//! What a run gives its items to.

ghost use Rattle.std.specs.Prelude.{◌≡◌, ℕ, Bool, false, List, [], ◌++◌, Ok, None};
ghost use Rattle.vio.specs.World.{Seen};
ghost use Rattle.vio.specs.Calls.{Call, Did, AreOn};
ghost use Rattle.one_run.specs.Run.{BeginTo, EndTo, FlushTo, ItemTo, MadeBut, goes_on, is_quiet};
ghost use Rattle.ring_layout.specs.declared.item.Item.{Item};

use log_model::NoMemory;
use ring_layout::Item;
use vio::World;

/// Prints items. A run knows no more of its output than this.
pub trait Output: Drop {
    /// How it ends.
    type Ending: Drop;

    /// By these calls these items were taken, from an output on until a later one, which goes on: what is due of them was
    /// written, or is held.
    ghost took: { Self → Self → List Call → List Item → Type 0 };

    /// By these calls these items were printed whole, from an output on until a later one, which goes on: nothing is held.
    ghost printed: { Self → Self → List Call → List Item → Type 0 };

    /// By these calls it ended so: behind items that were taken, with at most one more; whether they are all.
    ghost ended: { Self → Self.Ending → List Call → List Item → List Item → Bool → Type 0 };

    /// By these calls it came to want of memory, at the last of these items or behind them; whether they are all.
    ghost starved: { Self → List Call → List Item → Bool → Type 0 };

    /// Nothing was printed.
    ghost is_new: { Self → Type 0 };

    /// The handles that are written.
    ghost writes: { Self → List ℕ };

    /// Those of them that stop alone: that a write to one fails doesn't end it.
    ghost alone: { Self → List ℕ };

    /// It may be given an item, in a world.
    ghost is_ready: { Self → Seen → Type 0 };

    /// Prints what stands before all items; how it ended with it, or nothing where it goes on.
    fn begin<W: World>(&mut self, world: &mut W) -> Result<Option<Self::Ending>, NoMemory>
        requires new { is_new self.old }
        requires ready { is_ready self.old (W.seen world.old) }
        ensures begins { MadeBut (alone self.old) (goes_on result) [] (writes self.old)
            (λ calls. BeginTo (λ now. printed self.old self.new calls now)
            (λ ending now last all. ended self.old ending calls now last all)
            (λ now all. starved self.old calls now all) result) (W.seen world.old)
            (W.seen world.new) }
        ensures ready { result ≡ Ok None → is_ready self.new (W.seen world.new) };

    /// Takes an item, of which it may hold what is due; how it ended with it, or nothing where it goes on. An item with a
    /// message comes where nothing is held.
    fn item<W: World>(
        &mut self,
        world: &mut W,
        item: &Item,
    ) -> Result<Option<Self::Ending>, NoMemory>
        requires ready { is_ready self.old (W.seen world.old) }
        ensures prints { (start : Self) (calls : List Call) (done : List Item) →
            took start self.old calls done →
            (is_quiet item.now ≡ false → printed start self.old calls done) →
            MadeBut (alone start) (goes_on result) [] (writes start)
            (λ more. ItemTo (λ now. took start self.new (calls ++ more) now)
            (λ ending now last all. ended start ending (calls ++ more) now last all)
            (λ now all. starved start (calls ++ more) now all) result done item.now)
            (W.seen world.old) (W.seen world.new) }
        ensures ready { result ≡ Ok None → is_ready self.new (W.seen world.new) };

    /// Writes what is held; how it ended with that, or nothing where it goes on.
    fn flush<W: World>(&mut self, world: &mut W) -> Result<Option<Self::Ending>, NoMemory>
        requires ready { is_ready self.old (W.seen world.old) }
        ensures prints { (start : Self) (calls : List Call) (done : List Item) →
            took start self.old calls done →
            MadeBut (alone start) (goes_on result) [] (writes start)
            (λ more. FlushTo (λ now. printed start self.new (calls ++ more) now)
            (λ ending now last all. ended start ending (calls ++ more) now last all)
            (λ now all. starved start (calls ++ more) now all) result done)
            (W.seen world.old) (W.seen world.new) }
        ensures ready { result ≡ Ok None → is_ready self.new (W.seen world.new) };

    /// Prints the rest, after all items.
    fn end<W: World>(&mut self, world: &mut W) -> Result<Self::Ending, NoMemory>
        requires ready { is_ready self.old (W.seen world.old) }
        ensures prints { (start : Self) (calls : List Call) (done : List Item) →
            took start self.old calls done →
            MadeBut (alone start) false [] (writes start)
            (λ more. EndTo (λ ending now last all. ended start ending (calls ++ more) now last all)
            (λ now all. starved start (calls ++ more) now all) result done) (W.seen world.old)
            (W.seen world.new) };

    /// What was printed was taken.
    ghost takes: { (start now : Self) (calls : List Call) (done : List Item) →
        printed start now calls done → took start now calls done };

    /// What is read changes nothing of what was taken.
    ghost stays: { (start now : Self) (calls more : List Call) (done : List Item) (reads : List ℕ) →
        took start now calls done → AreOn reads [] more → took start now (calls ++ more) done };

    /// And nothing of what was printed.
    ghost printed_stays: { (start now : Self) (calls more : List Call) (done : List Item)
        (reads : List ℕ) → printed start now calls done → AreOn reads [] more →
        printed start now (calls ++ more) done };

    /// And it may still be given an item.
    ghost ready_still: { (now : Self) (reads : List ℕ) (more : List Call) (s t : Seen) →
        is_ready now s → AreOn reads [] more → Did more s t → is_ready now t };
}
