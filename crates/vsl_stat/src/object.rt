//! The counters as JSON.

ghost use Rattle.std.specs.Prelude.{◌≡◌, ◌<◌, IfOk};
ghost use Rattle.counter_segments.specs.Sums.{counter_count};
ghost use Rattle.serde_json.specs.Data.{object, no_members};
ghost use Rattle.serde_json.specs.View.{view};
ghost use Rattle.serde_json.specs.Written.{compact_text};
ghost use Rattle.vsl_stat.specs.Report as spec;
ghost use Rattle.vsl_stat.specs.inside.Selecting.{report_data};

use crate::globs::Globs;
use crate::table::{description_of, format_of, is_shown, name_of};
use counter_segments::{COUNTERS, Values};
use serde_json::{Map, Value, json};
use std::alloc::{AllocError, Global};

/// A counter and its value, as JSON.
fn counter_value(alloc: Global, which: u32, value: u64) -> Result<Value, AllocError>
    requires { which < counter_count }
    ensures { IfOk result (λ v. view v ≡ spec.counter_data which value) }
{
    let description = description_of(which);
    let format = format_of(which);
    json!(in alloc; {"description": description, "flag": "c", "format": format, "value": value})
}

/// The selected counters, by their names.
#[tactic(auto, using(crate::proofs::SelectLemmas::selecting))]
fn counters_value(alloc: Global, values: &Values, globs: &Globs) -> Result<Value, AllocError>
    ensures { IfOk result (λ v.
        view v ≡ object (spec.by_name values.now (spec.selected globs.now) no_members)) }
{
    let mut counters = Map::new(alloc);
    for which in 0..COUNTERS {
        if is_shown(which, globs) {
            let counter = counter_value(alloc, which, values.get(which))?;
            serde_json::put(&mut counters, alloc, name_of(which), counter)?;
        }
    }
    Ok(Value::Object(counters))
}

/// The whole report.
fn report_value(alloc: Global, values: &Values, globs: &Globs) -> Result<Value, AllocError>
    ensures { IfOk result (λ v. view v ≡ report_data values.now globs.now) }
{
    let counters = counters_value(alloc, values, globs)?;
    json!(in alloc; {"counters": counters, "version": 1u64})
}

/// The text of the whole report.
#[tactic(auto, using(crate::proofs::JsonLemmas::report_whole))]
pub(crate) fn report_text(
    alloc: Global,
    values: &Values,
    globs: &Globs,
) -> Result<Vec<u8>, AllocError>
    ensures { IfOk result (λ text. text.items ≡ compact_text (report_data values.now globs.now)) }
{
    report_value(alloc, values, globs)?.to_vec(alloc)
}
