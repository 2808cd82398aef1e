//! The lines of a report.
#![tactic(auto, using(log_model::proofs::PrefixLemmas::adding))]

ghost use Rattle.std.specs.Prelude.{◌<◌, ◌++◌, codes};
ghost use Rattle.counter_segments.specs.Sums.{counter_count};
ghost use Rattle.log_model.specs.Adding.{Puts};
ghost use Rattle.vsl_stat.specs.Report as spec;

use crate::table::{description_of, name_of};
use log_model::NoMemory;
use vsl_select::{put_left, put_right};

/// The columns of a name.
const NAME_COLUMNS: usize = 30;

/// The columns of a value.
const VALUE_COLUMNS: usize = 12;

/// Adds a text, and a line feed.
pub(crate) fn put_end(text: &[u8], out: &mut Vec<u8>) -> Result<(), NoMemory>
    ensures { Puts result out.old.items out.new.items (text.now ++ codes "\n") }
{
    out.extend_from_slice(text)?;
    out.push(b'\n')?;
    Ok(())
}

/// Adds the line of a counter, or a part of it.
pub(crate) fn put_counter(which: u32, value: u64, out: &mut Vec<u8>) -> Result<(), NoMemory>
    requires { which < counter_count }
    ensures { Puts result out.old.items out.new.items (spec.stat_line which value) }
{
    put_left(NAME_COLUMNS, name_of(which).as_bytes(), out)?;
    out.push(b' ')?;
    put_right(VALUE_COLUMNS, value, out)?;
    out.push(b' ')?;
    put_end(description_of(which).as_bytes(), out)
}
