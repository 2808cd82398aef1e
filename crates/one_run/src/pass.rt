//! The loop of a run.

ghost use Rattle.std.specs.Prelude.{◌≡◌, List, [], ◌++◌, false, true, Ok, None, IfOk, OnErr};
ghost use Rattle.vio.specs.World.{Seen};
ghost use Rattle.vio.specs.Calls.{Call};
ghost use Rattle.ring_layout.specs.declared.item.Item.{Item};
ghost use Rattle.one_run.specs.Run.{FlushTo, LastCame, MadeBut, Ran, RanShort, ReadyFor, Started, goes_on};
ghost use Rattle.one_run.specs.inside.Turns.{Goes, GoesOn, HasCome, IsCaught, IsMore, StopTo, TurnTo};

use crate::met::Met;
use crate::output::Output;
use crate::source::Source;
use log_model::{Halt, NoMemory};
use vio::World;

/// How a run ended.
#[derive(Debug, Drop)]
pub enum RunEnd<E, F> {
    /// Its output ended.
    ByOutput(E),
    /// Its source stopped.
    BySource(F),
}

/// How a run ended, and how much it met.
#[derive(Debug, Drop)]
pub struct RunEnded<E, F> {
    pub end: RunEnd<E, F>,
    pub met: Met,
}

/// What a turn of a run came to.
#[derive(Drop)]
enum Turn<E, F> {
    /// The run goes on, and met so much.
    On(Met),
    /// It ended.
    Ended(RunEnded<E, F>),
}

/// Writes what an output holds, unless what comes next is at hand; how the output ended with that, or nothing.
fn catch_up<W: World, O: Output>(
    world: &mut W,
    output: &mut O,
    hand: bool,
) -> Result<Option<O::Ending>, NoMemory>
    requires ready { O.is_ready output.old (W.seen world.old) }
    ensures prints { (start : O) (calls : List Call) (done : List Item) →
        O.took start output.old calls done →
        MadeBut (O.alone start) (goes_on result) [] (O.writes start)
        (λ more. FlushTo
        (λ now. IsCaught hand (O.took start output.new) (O.printed start output.new)
        (calls ++ more) now)
        (λ ending now last all. O.ended start ending (calls ++ more) now last all)
        (λ now all. O.starved start (calls ++ more) now all) result done)
        (W.seen world.old) (W.seen world.new) }
    ensures ready { result ≡ Ok None → O.is_ready output.new (W.seen world.new) }
{
    if hand {
        return Ok(None);
    }
    output.flush(world)
}

/// Writes what an output holds where its source stopped so with what was at hand, and says how the run ended.
fn stop<W: World, O: Output, F: Drop>(
    world: &mut W,
    output: &mut O,
    fault: F,
) -> Result<RunEnd<O::Ending, F>, NoMemory>
    requires ready { O.is_ready output.old (W.seen world.old) }
    ensures prints { (start : O) (calls : List Call) (done : List Item) →
        O.took start output.old calls done → MadeBut (O.alone start) false [] (O.writes start)
        (λ more. StopTo fault (λ now. O.printed start output.new (calls ++ more) now)
        (λ ending now last all. O.ended start ending (calls ++ more) now last all)
        (λ now all. O.starved start (calls ++ more) now all) result done)
        (W.seen world.old) (W.seen world.new) }
{
    match output.flush(world)? {
        Some(ending) => Ok(RunEnd::ByOutput(ending)),
        None => Ok(RunEnd::BySource(fault)),
    }
}

/// A turn of a run that met so much: asks the source for an item, and gives it to the output.
fn take_turn<W: World, S: Source, O: Output>(
    world: &mut W,
    source: &mut S,
    output: &mut O,
    met: Met,
) -> Result<Turn<O::Ending, S::Fault>, NoMemory>
    requires source { S.is_ready source.old }
    requires output { O.is_ready output.old (W.seen world.old) }
    requires came { HasCome S.gave source.old }
    ensures turns { IfOk result (λ t. (from : S) (start : O) (done : List Item) (before : Seen) →
        MadeBut (O.alone start) true (S.reads from) (O.writes start)
        (Goes (S.gave from source.old) (ReadyFor S.asks O.printed from start)
        (O.took start output.old) met done) before (W.seen world.old) →
        TurnTo (O.alone start) (S.reads from) (O.writes start) (S.gave from source.new)
        (LastCame (S.gave from) S.at_hand source.new)
        (λ fault calls met. S.stopped from fault calls met (W.seen world.new))
        (ReadyFor S.asks O.printed from start)
        (O.took start output.new) (O.printed start output.new) (O.ended start) before
        (W.seen world.new) t done) }
    ensures more { IfOk result (IsMore met) }
    ensures came { IfOk result (GoesOn (HasCome S.gave source.new)) }
    ensures source { IfOk result (GoesOn (S.is_ready source.new)) }
    ensures output { IfOk result (GoesOn (O.is_ready output.new (W.seen world.new))) }
    ensures short { OnErr result ((from : S) (start : O) (done : List Item) (before : Seen) →
        MadeBut (O.alone start) true (S.reads from) (O.writes start)
        (Goes (S.gave from source.old) (ReadyFor S.asks O.printed from start)
        (O.took start output.old) met done) before (W.seen world.old) →
        MadeBut (O.alone start) false (S.reads from) (O.writes start)
        (RanShort (LastCame (S.gave from) S.at_hand source.new) (S.starved from source.new)
        (O.took start output.new) (O.starved start)) before (W.seen world.new)) }
{
    if !met.has_room() {
        return Err(NoMemory);
    }
    let hand = source.is_at_hand();
    if let Some(ending) = catch_up(world, output, hand)? {
        let end = RunEnd::ByOutput(ending);
        return Ok(Turn::Ended(RunEnded { end, met }));
    }
    match source.next(world) {
        Ok(Some(item)) => {
            let met = met.and(&item);
            if let Some(ending) = output.item(world, &item)? {
                let end = RunEnd::ByOutput(ending);
                return Ok(Turn::Ended(RunEnded { end, met }));
            }
            source.give_back(item);
            Ok(Turn::On(met))
        }
        Ok(None) => {
            let ending = output.end(world)?;
            let end = RunEnd::ByOutput(ending);
            Ok(Turn::Ended(RunEnded { end, met }))
        }
        Err(Halt::Fault(fault)) => {
            if !hand {
                let end = RunEnd::BySource(fault);
                return Ok(Turn::Ended(RunEnded { end, met }));
            }
            let end = stop(world, output, fault)?;
            Ok(Turn::Ended(RunEnded { end, met }))
        }
        Err(Halt::NoMemory) => Err(NoMemory),
    }
}

/// Gives the items of a source to an output that was begun, until one of them ends.
fn run_on<W: World, S: Source, O: Output>(
    world: &mut W,
    source: &mut S,
    output: &mut O,
) -> Result<RunEnded<O::Ending, S::Fault>, NoMemory>
    requires source { S.is_ready source.old }
    requires fresh { S.gave source.old source.old [] [] false }
    requires output { O.is_ready output.old (W.seen world.old) }
    ensures ran { IfOk result (λ r. (start : O) (before : Seen) →
        MadeBut (O.alone start) true (S.reads source.old) (O.writes start)
        (Started (S.gave source.old source.old) (O.printed start output.old)) before
        (W.seen world.old) → MadeBut (O.alone start) false (S.reads source.old) (O.writes start)
        (Ran (LastCame (S.gave source.old) S.at_hand source.new)
        (λ fault calls met. S.stopped source.old fault calls met (W.seen world.new))
        (ReadyFor S.asks O.printed source.old start)
        (O.printed start output.new) (O.ended start) (O.writes start) r.end r.met) before
        (W.seen world.new)) }
    ensures short { OnErr result ((start : O) (before : Seen) →
        MadeBut (O.alone start) true (S.reads source.old) (O.writes start)
        (Started (S.gave source.old source.old) (O.printed start output.old)) before
        (W.seen world.old) → MadeBut (O.alone start) false (S.reads source.old) (O.writes start)
        (RanShort (LastCame (S.gave source.old) S.at_hand source.new)
        (S.starved source.old source.new) (O.took start output.new) (O.starved start)) before
        (W.seen world.new)) }
{
    let mut met = Met::none();
    loop {
        match take_turn(world, source, output, met)? {
            Turn::On(now) => met = now,
            Turn::Ended(end) => return Ok(end),
        }
    }
}

/// Gives the items of a source to an output, until one of them ends. It waits where its source does.
pub fn run<W: World, S: Source, O: Output>(
    world: &mut W,
    source: &mut S,
    output: &mut O,
) -> Result<RunEnded<O::Ending, S::Fault>, NoMemory>
    requires source { S.is_ready source.old }
    requires fresh { S.gave source.old source.old [] [] false }
    requires output { O.is_ready output.old (W.seen world.old) }
    requires new { O.is_new output.old }
    ensures ran { IfOk result
        (λ r. MadeBut (O.alone output.old) false (S.reads source.old) (O.writes output.old)
        (Ran (LastCame (S.gave source.old) S.at_hand source.new)
        (λ fault calls met. S.stopped source.old fault calls met (W.seen world.new))
        (ReadyFor S.asks O.printed source.old output.old)
        (O.printed output.old output.new) (O.ended output.old) (O.writes output.old) r.end r.met)
        (W.seen world.old) (W.seen world.new)) }
    ensures short { OnErr result
        (MadeBut (O.alone output.old) false (S.reads source.old) (O.writes output.old)
        (RanShort (LastCame (S.gave source.old) S.at_hand source.new)
        (S.starved source.old source.new) (O.took output.old output.new)
        (O.starved output.old)) (W.seen world.old) (W.seen world.new)) }
{
    match output.begin(world)? {
        None => run_on(world, source, output),
        Some(ending) => Ok(RunEnded {
            end: RunEnd::ByOutput(ending),
            met: Met::none(),
        }),
    }
}
