//! Runs over a world in memory.

use crate::answers::{Answer, is_fault_of, message_of, status_of, took_of};
use std::alloc::Global;
use std::sync::Wait;
use std::thread::Threads;
use varnish_tools::{Gate, OpenGate, Outcome, run_tools};
use vio::{ERRORS, MemWorld, NoMemory, World};

/// A world in which the file `f` has these bytes.
pub fn world_with(alloc: Global, bytes: &[u8]) -> Result<MemWorld, NoMemory> {
    let mut world = MemWorld::new(alloc)?;
    world.file("f", bytes)?;
    Ok(world)
}

/// Runs the words, at a gate.
pub fn run_words<R: Threads + Wait + Sync, W: World, G: Gate>(
    rt: &R,
    alloc: Global,
    words: &[&str],
    world: &mut W,
    gate: &G,
) -> Result<Outcome, NoMemory> {
    let mut typed = Vec::new(alloc);
    for word in words {
        typed.push(String::from_str(alloc, word)?)?;
    }
    run_tools(rt, alloc, &typed, world, gate)
}

/// Runs the words, and compares all that comes out: what differs, and nothing where it is as it should be.
pub fn differs<R: Threads + Wait + Sync>(
    rt: &R,
    alloc: Global,
    words: &[&str],
    world: &mut MemWorld,
    want: &Answer<'_>,
) -> Result<&'static str, NoMemory> {
    let outcome = run_words(rt, alloc, words, world, &OpenGate)?;
    let message = message_of(alloc, want.ending)?;
    let errors = message.get(..want.written).unwrap_or(&message);
    Ok(if !is_fault_of(&outcome.fault, want.ending) {
        "the fault"
    } else if outcome.status != status_of(want.ending) {
        "the status"
    } else if took_of(&outcome.run) != want.took {
        "what was taken"
    } else if world.content(want.sink) != want.output {
        "what was written"
    } else if world.content(ERRORS) != errors {
        "the message"
    } else {
        ""
    })
}
