//! The line of a transaction.
#![tactic(auto, using(log_model::proofs::PrefixLemmas::adding))]

ghost use Rattle.std.specs.Prelude.{◌≡◌};
ghost use Rattle.std.specs.List.{flat_map, list_any};
ghost use Rattle.log_model.specs.Adding.{Adds, Puts};
ghost use Rattle.ncsa_format.specs.Line.{has_line, is_restart, line_of, piece_text};
ghost use Rattle.ncsa_format.specs.inside.Runs.{pieces_in, run_pieces};

use crate::format::Format;
use crate::run::Run;
use crate::value::put_value;
use log_model::{NoMemory, or_cut_back};
use std::alloc::Global;
use txn_rows::{Kind, Member};
use vsl_record::{RecordView, RecordsView};
use vsl_tags::named::VCL_RETURN;

/// Whether a record says that a request starts again.
fn is_restart(rec: &RecordView<'_>) -> bool
    ensures { result ≡ is_restart rec.now }
{
    rec.tag().number() == VCL_RETURN && rec.payload() == b"restart".as_slice()
}

/// Whether a request starts again.
fn starts_again(records: &RecordsView<'_>) -> bool
    ensures { result ≡ list_any is_restart records.now }
{
    for i in 0..records.len() {
        if is_restart(&records.get(i)) {
            return true;
        }
    }
    false
}

/// Whether a transaction has a line.
fn has_line(member: &Member) -> bool
    ensures { result ≡ has_line member.now }
{
    match member.kind {
        Kind::Request | Kind::BeReq => !starts_again(&member.records.view()),
        Kind::Session | Kind::Unknown | Kind::Record => false,
    }
}

/// Adds a run of a format for a transaction, or a part of it.
fn put_run(alloc: Global, out: &mut Vec<u8>, run: &Run, member: &Member) -> Result<(), NoMemory>
    ensures { Puts result out.old.items out.new.items
        (flat_map (piece_text member.now) (run_pieces run.now)) }
{
    match run {
        Run::Text(text) => {
            out.extend_from_slice(text)?;
            Ok(())
        }
        Run::Value(formatter) => put_value(alloc, out, formatter, member),
    }
}

/// Adds runs of a format for a transaction, or a part of them.
fn put_runs(alloc: Global, out: &mut Vec<u8>, runs: &[Run], member: &Member) -> Result<(), NoMemory>
    ensures { Puts result out.old.items out.new.items
        (flat_map (piece_text member.now) (pieces_in runs.now)) }
{
    for run in runs {
        put_run(alloc, out, run, member)?;
    }
    Ok(())
}

/// Adds the line of a transaction, or a part of it.
fn put_line(out: &mut Vec<u8>, format: &Format, member: &Member) -> Result<(), NoMemory>
    ensures { Puts result out.old.items out.new.items (line_of format.now member.now) }
{
    if !has_line(member) {
        return Ok(());
    }
    put_runs(format.alloc, out, &format.runs, member)?;
    out.push(b'\n')?;
    Ok(())
}

/// Adds the line of a request of a client or of a backend, in a format. A request that starts again, and every other
/// transaction, has none. After want of memory the list is as it was.
///
/// Source: varnishncsa(1), "FORMAT".
pub fn line(format: &Format, member: &Member, out: &mut Vec<u8>) -> Result<(), NoMemory>
    ensures { Adds result out.old.items out.new.items (line_of format.now member.now) }
{
    let before = out.len();
    let put = put_line(out, format, member);
    or_cut_back(put, before, out)
}
