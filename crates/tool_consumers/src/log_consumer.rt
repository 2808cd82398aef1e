//! The consumer of varnishlog: groups as lines, or as the units of a log file.

ghost use Rattle.std.specs.Prelude.{◌≡◌, [], false};
ghost use Rattle.tool_consumers.specs.inside.Consumer.{IsLog};

use crate::layout::{Look, put_group, put_raw};
use std::alloc::Global;
use std::mem::replace;
use txn_rows::Group;
use vio::NoMemory;
use vsl_dispatch::{Consumer, Go, Received};
use vsl_record::Unit;

/// Writes what is shown of groups as it looks.
///
/// Source: varnishlog(1), `-A`, `-v`, `-w` and `-k`.
#[derive(Drop)]
pub struct LogConsumer<'s> {
    alloc: Global,
    pub look: Look<'s>,
    pub received: Received,
    pub text: Vec<u8>,
    /// The most bytes that were taken at once, or fewer: for as many there is room with the first group after that.
    usual: usize,
}

/// The most bytes for which room is made before they are there.
const MOST_ROOM: usize = 65_536;

/// Makes room for a text of this length where there is none yet.
fn make_room(text: &mut Vec<u8>, usual: usize) -> Result<(), NoMemory>
    ensures { text.new.items ≡ text.old.items }
{
    if text.is_empty() {
        text.reserve(usual)?;
    }
    Ok(())
}

impl<'s> LogConsumer<'s> {
    /// A consumer that received nothing.
    pub fn new(alloc: Global, look: Look<'s>, keep: Option<u32>) -> LogConsumer<'s>
        ensures look { result.look ≡ look.entry }
        ensures keep { result.received.keep ≡ keep }
        ensures new { IsLog result [] false [] }
    {
        LogConsumer {
            alloc,
            look,
            received: Received::new(keep),
            text: Vec::new(alloc),
            usual: 0,
        }
    }
}

impl<'s> Consumer for LogConsumer<'s> {
    ghost use Rattle.tool_consumers.specs.Output.{laid_out};
    ghost use Rattle.tool_consumers.specs.inside.Consumer.{IsLog};

    ghost keep = { λ c. c.received.keep };

    ghost output = { λ c groups ended. laid_out c.look groups };

    ghost represents = { λ c groups ended taken. IsLog c groups ended taken };

    fn group(&mut self, group: &Group) -> Result<Go, NoMemory> {
        make_room(&mut self.text, self.usual)?;
        put_group(&mut self.text, &mut self.look, group)?;
        self.received.add_one()
    }

    fn records(&mut self, unit: &Unit) -> Result<bool, NoMemory> {
        if self.received.keep.is_some() {
            return Ok(false);
        }
        make_room(&mut self.text, self.usual)?;
        put_raw(&mut self.text, &mut self.look, unit)?;
        Ok(true)
    }

    fn end(&mut self) -> Result<(), NoMemory> {
        Ok(())
    }

    fn take_text(&mut self) -> Vec<u8> {
        self.usual = self.usual.max(self.text.len()).min(MOST_ROOM);
        replace(&mut self.text, Vec::new(self.alloc))
    }

    fn text_len(&self) -> usize {
        self.text.len()
    }
}
