//! Writing what is due at each sink.

ghost use Rattle.std.specs.Prelude.{◌≡◌, ◌≢◌, ◌<◌, ℕ, Bool, List, length, true, false, [], ◌∷◌, ◌++◌, IsTrue, IfOk, OnOk, OnErr, Some, codes};
ghost use Rattle.std.specs.List.{list_any};
ghost use Rattle.log_model.specs.Prefix.{IsPrefix};
ghost use Rattle.vio.specs.declared.world.TheConstants.{ERRORS};
ghost use Rattle.vio.specs.World.{Writing};
ghost use Rattle.vio.specs.Calls.{Call, Called, written_by};
ghost use Rattle.ring_layout.specs.declared.item.Item.{Item};
ghost use Rattle.one_run.specs.Run.{MadeBut};
ghost use Rattle.fan_output.specs.Messages.{message_of, messages_of};
ghost use Rattle.fan_output.specs.Ends.{TextShort};
ghost use Rattle.fan_output.specs.Fan.{AreApart, AreNamed, FanShort, due_at, handles, outlets_of, several};
ghost use Rattle.fan_output.specs.Unwritten.{first_of};
ghost use Rattle.fan_output.specs.inside.Pieces.{is_end};
ghost use Rattle.fan_output.specs.inside.Steps.{AllWait, AllWrote, BlamesAt, BlamesOn, Puts, PutsPiece, Waits, Wrote};
ghost use Rattle.fan_output.specs.declared.piece.Piece.TheVariants as pieces;

use crate::messages::report;
use crate::piece::Piece;
use crate::sink::Sink;
use crate::texts::Texts;
use log_model::NoMemory;
use ring_layout::Item;
use std::alloc::Global;
use vio::{World, WorldFault, write_all};

/// What is held at a place at most: with so many bytes it is written.
const HELD: usize = 65536;

/// Writes a text to a handle; whether that went.
fn put<W: World>(world: &mut W, handle: u32, text: &[u8]) -> Result<bool, NoMemory>
    ensures { (name : List ℕ) → IsTrue ((W.seen world.old).names Writing handle name) →
        Called (Puts handle name text.now result) (W.seen world.old) (W.seen world.new) }
{
    match write_all(world, handle, text) {
        Ok(()) => Ok(true),
        Err(WorldFault::Failed) => Ok(false),
        Err(WorldFault::NoMemory) => Err(NoMemory),
    }
}

/// Writes the message of an item, if it has one, to standard error; whether that went.
pub(crate) fn tell<W: World>(alloc: Global, world: &mut W, item: &Item) -> Result<bool, NoMemory>
    ensures { Called (Puts ERRORS (codes "stderr") (message_of item.now) result)
        (W.seen world.old) (W.seen world.new) }
{
    match report(alloc, world, item) {
        Ok(()) => Ok(true),
        Err(WorldFault::Failed) => Ok(false),
        Err(WorldFault::NoMemory) => Err(NoMemory),
    }
}

/// Of places whose write failed the first: an earlier one, or else this.
fn first_of(earlier: Option<usize>, place: usize) -> Option<usize>
    ensures { result ≡ first_of earlier (Some place) }
{
    match earlier {
        Some(first) => Some(first),
        None => Some(place),
    }
}

/// Whether what is written at a place next is the last of it: at the end, and where it has as many groups as are kept.
fn is_last<T: Texts>(texts: &T, place: usize, piece: Piece) -> bool
    requires place { place < T.count texts.now }
    ensures end { is_end piece ≡ true → result ≡ true }
    ensures filled { is_end piece ≡ false → (met : List Item) (taken : List ℕ) →
        T.holds texts.now place met false taken → result ≡ T.filled texts.now place met }
{
    if piece.is_end() {
        return true;
    }
    texts.is_filled(place)
}

/// Whether a place may hold what it has: behind an item, where that is little.
fn is_little<T: Texts>(texts: &T, place: usize, piece: Piece) -> bool
    requires place { place < T.count texts.now }
    ensures { result ≡ true → piece ≡ pieces.Full }
{
    match piece {
        Piece::Full => texts.text_len(place) < HELD,
        Piece::Head | Piece::All | Piece::Last => false,
    }
}

/// Writes a piece at a place; whether that went.
fn put_piece<W: World, T: Texts>(
    world: &mut W,
    texts: &mut T,
    sink: &Sink,
    place: usize,
    piece: Piece,
) -> Result<bool, NoMemory>
    requires place { place < T.count texts.old }
    requires named { (W.seen world.old).names Writing sink.now.handle sink.now.name ≡ true }
    ensures same_text { T.text texts.new ≡ T.text texts.old }
    ensures same_filled { T.filled texts.new ≡ T.filled texts.old }
    ensures same_count { T.count texts.new ≡ T.count texts.old }
    ensures others { (i : ℕ) (met : List Item) (all : Bool) (taken : List ℕ) → i ≢ place →
        T.holds texts.old i met all taken → T.holds texts.new i met all taken }
    ensures puts { PutsPiece piece sink.now (T.text texts.old place) (T.holds texts.old place)
        (T.holds texts.new place) result (W.seen world.old) (W.seen world.new) }
{
    match piece {
        Piece::Head => put(world, sink.handle, &sink.head),
        Piece::Full | Piece::All | Piece::Last => {
            let text = texts.take_text(place);
            put(world, sink.handle, &text)
        }
    }
}

/// Writes a piece at a place that is live, unless it is held; whether the place still is live: not where that failed, not where it
/// has as many groups as are kept, and not at the end.
fn print_place<W: World, T: Texts>(
    world: &mut W,
    texts: &mut T,
    sink: &Sink,
    live: bool,
    unwritten: &mut Option<usize>,
    place: usize,
    piece: Piece,
) -> Result<bool, NoMemory>
    requires place { place < T.count texts.old }
    requires named { (W.seen world.old).names Writing sink.now.handle sink.now.name ≡ true }
    requires apart { sink.now.handle ≢ ERRORS }
    ensures same_text { T.text texts.new ≡ T.text texts.old }
    ensures same_filled { T.filled texts.new ≡ T.filled texts.old }
    ensures same_count { T.count texts.new ≡ T.count texts.old }
    ensures others { (i : ℕ) (met : List Item) (all : Bool) (taken : List ℕ) → i ≢ place →
        T.holds texts.old i met all taken → T.holds texts.new i met all taken }
    ensures printed { IfOk result (λ new. MadeBut [] new [] (sink.now.handle ∷ [])
        (λ more. BlamesAt place sink.now.name unwritten.old unwritten.new more ×
        ((calls : List Call) (done last : List Item) →
        Waits piece (T.holds texts.old place) sink.now.handle
        (due_at (T.text texts.old) (T.filled texts.old) place sink.now) live calls done last →
        Wrote piece (T.holds texts.new place) sink.now.handle
        (due_at (T.text texts.old) (T.filled texts.old) place sink.now) live new (calls ++ more)
        done last)) (W.seen world.old) (W.seen world.new)) }
    ensures short { OnErr result (MadeBut [] false [] (sink.now.handle ∷ [])
        (λ more. (calls : List Call) (done last : List Item) →
        Waits piece (T.holds texts.old place) sink.now.handle
        (due_at (T.text texts.old) (T.filled texts.old) place sink.now) live calls done last →
        TextShort sink.now.handle (due_at (T.text texts.old) (T.filled texts.old) place sink.now)
        (calls ++ more) (done ++ last) (is_end piece)) (W.seen world.old) (W.seen world.new)) }
{
    if !live {
        return Ok(false);
    }
    let last = is_last(texts, place, piece);
    if !last {
        if is_little(texts, place, piece) {
            return Ok(true);
        }
    }
    if put_piece(world, texts, sink, place, piece)? {
        return Ok(!last);
    }
    // The part that was written stays, and no more of the text is.
    texts.stop(place);
    *unwritten = first_of(*unwritten, place);
    Ok(false)
}

/// Writes a piece at each place that is live.
pub(crate) fn print_each<W: World, T: Texts>(
    world: &mut W,
    texts: &mut T,
    sinks: &Vec<Sink>,
    live: &mut Vec<bool>,
    unwritten: &mut Option<usize>,
    piece: Piece,
) -> Result<(), NoMemory>
    requires lives { length live.old.items ≡ length sinks.now.items }
    requires texts { T.count texts.old ≡ length sinks.now.items }
    requires apart { AreApart sinks.now.items }
    requires named { AreNamed sinks.now.items (W.seen world.old) }
    ensures lives { length live.new.items ≡ length live.old.items }
    ensures same_text { T.text texts.new ≡ T.text texts.old }
    ensures same_filled { T.filled texts.new ≡ T.filled texts.old }
    ensures same_count { T.count texts.new ≡ T.count texts.old }
    ensures printed { OnOk result (MadeBut (several (handles sinks.now.items))
        (list_any (λ (b : Bool). b) live.new.items) [] (handles sinks.now.items)
        (λ more. BlamesOn (outlets_of (T.text texts.old) (T.filled texts.old) sinks.now.items)
        unwritten.old unwritten.new more ×
        ((calls : List Call) (done last : List Item) →
        AllWait piece (T.text texts.old) (T.filled texts.old) (T.holds texts.old) sinks.now.items
        live.old.items calls done last →
        AllWrote piece (T.text texts.old) (T.filled texts.old) (T.holds texts.new) sinks.now.items
        live.old.items live.new.items (calls ++ more) done last))
        (W.seen world.old) (W.seen world.new)) }
    ensures short { OnErr result (MadeBut (several (handles sinks.now.items)) false []
        (handles sinks.now.items)
        (λ more. (calls : List Call) (done last : List Item) →
        IsPrefix (written_by ERRORS calls) (messages_of (done ++ last)) →
        AllWait piece (T.text texts.old) (T.filled texts.old) (T.holds texts.old) sinks.now.items
        live.old.items calls done last →
        FanShort (outlets_of (T.text texts.old) (T.filled texts.old) sinks.now.items)
        (calls ++ more) (done ++ last) (is_end piece)) (W.seen world.old) (W.seen world.new)) }
{
    for place in 0..sinks.len() {
        live[place] = print_place(
            world,
            texts,
            &sinks[place],
            live[place],
            unwritten,
            place,
            piece,
        )?;
    }
    Ok(())
}
