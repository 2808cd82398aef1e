//! The reports. After want of memory each leaves the list as it was.
#![tactic(auto, using(log_model::proofs::PrefixLemmas::adding))]

ghost use Rattle.std.specs.Prelude.{◌<◌};
ghost use Rattle.std.specs.Option.{option_copied};
ghost use Rattle.counter_segments.specs.Sums.{counter_count};
ghost use Rattle.log_model.specs.Adding.{Adds, Puts};
ghost use Rattle.vsl_stat.specs.Report as spec;
ghost use Rattle.vsl_stat.specs.inside.Selecting.{told_of, told_of_all};

use crate::globs::Globs;
use crate::line::{put_counter, put_end};
use crate::object::report_text;
use crate::table::{is_shown, name_of};
use counter_segments::{COUNTERS, Values};
use log_model::{NoMemory, or_cut_back};
use std::alloc::Global;

/// Adds the line of a counter, or without values its name and a line feed; or a part of it.
fn put_told(which: u32, values: Option<&Values>, out: &mut Vec<u8>) -> Result<(), NoMemory>
    requires { which < counter_count }
    ensures { Puts result out.old.items out.new.items (told_of (option_copied values.entry) which) }
{
    match values {
        Some(values) => put_counter(which, values.get(which), out),
        None => put_end(name_of(which).as_bytes(), out),
    }
}

/// Adds a line for each selected counter, in the order of their numbers, or a part of them.
fn put_all_told(values: Option<&Values>, globs: &Globs, out: &mut Vec<u8>) -> Result<(), NoMemory>
    ensures { Puts result out.old.items out.new.items
        (told_of_all (option_copied values.entry) globs.now) }
{
    for which in 0..COUNTERS {
        if is_shown(which, globs) {
            put_told(which, values, out)?;
        }
    }
    Ok(())
}

/// Adds a line for each selected counter, in the order of their numbers: its name, its value and what it counts, as
/// `MAIN.cache_miss                           1 Cache misses`.
///
/// Source: varnishstat(1), `-1`. The columns and the texts are this project's choice; there is no column with a count per
/// second, which needs a clock.
pub fn stat_text(values: &Values, globs: &Globs, out: &mut Vec<u8>) -> Result<(), NoMemory>
    ensures { Adds result out.old.items out.new.items (spec.stat_text values.now globs.now) }
{
    let before = out.len();
    let put = put_all_told(Some(values), globs, out);
    or_cut_back(put, before, out)
}

/// Adds the names of the selected counters, in the order of their numbers, a line each, as `MAIN.cache_miss`.
///
/// Source: varnishstat(1), `-l`. That a line has the name alone is this project's choice.
pub fn stat_list(globs: &Globs, out: &mut Vec<u8>) -> Result<(), NoMemory>
    ensures { Adds result out.old.items out.new.items (spec.stat_list globs.now) }
{
    let before = out.len();
    let put = put_all_told(None, globs, out);
    or_cut_back(put, before, out)
}

/// Adds the selected counters as one JSON text and a line feed: an object that has each counter by its name, with what it
/// counts and its value. The names stand in the order of their bytes.
///
/// Source: varnishstat(1), `-j`. The members and their order are this project's choice; there is no `timestamp`, which needs a clock.
pub fn stat_json(
    alloc: Global,
    values: &Values,
    globs: &Globs,
    out: &mut Vec<u8>,
) -> Result<(), NoMemory>
    ensures { Adds result out.old.items out.new.items (spec.stat_json values.now globs.now) }
{
    let text = report_text(alloc, values, globs)?;
    let before = out.len();
    let put = put_end(&text, out);
    or_cut_back(put, before, out)
}
