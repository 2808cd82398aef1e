//! An output of a run: several texts, with the messages of overruns and of what they cost.

ghost use Rattle.std.specs.Prelude.{◌≡◌};

use crate::fan::{FanEnd, FanEnding, FanOutput, has_live};
use crate::piece::Piece;
use crate::printing::{print_each, tell};
use crate::texts::Texts;
use log_model::NoMemory;
use one_run::Output;
use ring_layout::Item;
use vio::World;

impl<T: Texts> FanOutput<T> {
    /// How it ends so.
    fn ending(&self, how: FanEnd) -> FanEnding
        ensures how { result.how ≡ how }
        ensures unwritten { result.unwritten ≡ self.now.unwritten }
    {
        FanEnding {
            how,
            unwritten: self.unwritten,
        }
    }
}

impl<T: Texts> Output for FanOutput<T> {
    ghost use Rattle.std.specs.Prelude.{[], ◌∷◌, true, false};
    ghost use Rattle.vio.specs.declared.world.TheConstants.{ERRORS};
    ghost use Rattle.fan_output.specs.Fan.{FanEnded, FanShort, handles, outlets_of, several};
    ghost use Rattle.fan_output.specs.Laws.{CanFan, HasTaken, IsNew, has_taken, ready_stays, taken_stays};

    type Ending = FanEnding;

    ghost took = { λ start now calls done.
        HasTaken T.text T.filled T.holds false start now calls done };

    ghost printed = { λ start now calls done.
        HasTaken T.text T.filled T.holds true start now calls done };

    ghost ended = { λ start ending calls done last all.
        FanEnded (outlets_of (T.text start.texts) (T.filled start.texts) start.sinks.items) ending
        calls done last all };

    ghost starved = { λ start calls met all.
        FanShort (outlets_of (T.text start.texts) (T.filled start.texts) start.sinks.items) calls
        met all };

    ghost is_new = { λ o. IsNew T.text T.filled T.holds o };

    ghost writes = { λ o. ERRORS ∷ handles o.sinks.items };

    ghost alone = { λ o. several (handles o.sinks.items) };

    ghost is_ready = { λ o world. CanFan T.count o world };

    fn begin<W: World>(&mut self, world: &mut W) -> Result<Option<FanEnding>, NoMemory> {
        print_each(
            world,
            &mut self.texts,
            &self.sinks,
            &mut self.live,
            &mut self.unwritten,
            Piece::Head,
        )?;
        if has_live(&self.live) {
            return Ok(None);
        }
        Ok(Some(self.ending(FanEnd::Idle)))
    }

    fn item<W: World>(
        &mut self,
        world: &mut W,
        item: &Item,
    ) -> Result<Option<FanEnding>, NoMemory> {
        if !tell(self.alloc, world, item)? {
            return Ok(Some(self.ending(FanEnd::Unreported)));
        }
        self.texts.item(item)?;
        print_each(
            world,
            &mut self.texts,
            &self.sinks,
            &mut self.live,
            &mut self.unwritten,
            Piece::Full,
        )?;
        if has_live(&self.live) {
            return Ok(None);
        }
        Ok(Some(self.ending(FanEnd::Idle)))
    }

    fn flush<W: World>(&mut self, world: &mut W) -> Result<Option<FanEnding>, NoMemory> {
        print_each(
            world,
            &mut self.texts,
            &self.sinks,
            &mut self.live,
            &mut self.unwritten,
            Piece::All,
        )?;
        if has_live(&self.live) {
            return Ok(None);
        }
        Ok(Some(self.ending(FanEnd::Idle)))
    }

    fn end<W: World>(&mut self, world: &mut W) -> Result<FanEnding, NoMemory> {
        self.texts.end()?;
        print_each(
            world,
            &mut self.texts,
            &self.sinks,
            &mut self.live,
            &mut self.unwritten,
            Piece::Last,
        )?;
        Ok(self.ending(FanEnd::Whole))
    }

    ghost takes = { λ start now calls done p. has_taken T.text T.filled T.holds start now calls
        done p };

    ghost stays = { λ start now calls more done reads.
        taken_stays T.text T.filled T.holds false start now calls more done reads };

    ghost printed_stays = { λ start now calls more done reads.
        taken_stays T.text T.filled T.holds true start now calls more done reads };

    ghost ready_still = { λ o reads more s t. ready_stays T.count o reads more s t };
}
