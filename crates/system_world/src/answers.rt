//! What a program answers by itself: a text on standard output, or a line on standard error, and the exit status.

ghost use Rattle.std.specs.Prelude.{◌≡◌};
ghost use Rattle.system_world.specs.Printed.{IsPrinted};

use std::io::Eprint;
use vio::{OUTPUT, World, WorldFault, write_all};

/// Prints a text on standard output, as the program's help, and answers the exit status: 0, or 1 where a write failed, or 3 where
/// there was no memory.
///
/// Of the last two a line on standard error tells, behind the program's name: `PROGRAM: -: write failed`, or that of `no_memory`.
pub fn answer<W: World>(world: &mut W, rt: &impl Eprint, program: &str, text: &str) -> u8
    ensures { IsPrinted text.now result (W.seen world.old) (W.seen world.new) }
{
    match write_all(world, OUTPUT, text.as_bytes()) {
        Ok(()) => 0,
        Err(WorldFault::Failed) => {
            let _ = eprintln!(rt; "{program}: -: write failed");
            1
        }
        Err(WorldFault::NoMemory) => no_memory(rt, program),
    }
}

/// Says on standard error that there was no memory, as `PROGRAM: out of memory`, and answers the exit status for that.
pub fn no_memory(rt: &impl Eprint, program: &str) -> u8
    ensures { result ≡ 3 }
{
    let _ = eprintln!(rt; "{program}: out of memory");
    3
}

/// Says on standard error that the argument at a place, from 1 on, isn't UTF-8, as `PROGRAM: argument 5 is not UTF-8`, and answers
/// the exit status for a faulty command line. A program's `main` calls it, because its top call takes words as
/// `String`.
pub fn not_text(rt: &impl Eprint, program: &str, place: usize) -> u8
    ensures { result ≡ 2 }
{
    let _ = eprintln!(rt; "{program}: argument {place} is not UTF-8");
    2
}
