//! Taking the parts of a log.

ghost use Rattle.std.specs.Prelude.{◌≡◌, ◌+◌, ◌<◌, ◌≤◌, ◌++◌, ◌∷◌, [], List, ℕ, length, IfOk, OnOk};
ghost use Rattle.std.specs.List.{filter_map};
ghost use Rattle.vsl_record.specs.Unit.{vxid_end};
ghost use Rattle.vsl_record.specs.Words.{most_words};
ghost use Rattle.raw_records.specs.Lines.{LoggedRecord};
ghost use Rattle.varnish_log.specs.Taken.{AreTaken, taken_of};
ghost use Rattle.varnish_log.specs.inside.Taking.{EndsWith};
ghost use Rattle.varnish_log.specs.inside.Written.{IsWritten, nothing, words_of};
ghost use Rattle.varnish_log.specs.inside.Views.{says_record};

use crate::form::How;
use crate::loss::{Counts, Loss};
use crate::parts::{NextPart, next_part};
use crate::units::UnitWriter;
use log_model::NoMemory;
use raw_records::TagCache;
use std::alloc::Global;
use vsl_record::{MAX_PAYLOAD, Mark, Vxid};
use vsl_tags::Tag;

/// Why taking parts stopped.
#[derive(Clone, Copy, Debug, PartialEq, Eq)]
pub(crate) enum Stop {
    /// What follows may be a part's beginning.
    GoesOn,
    /// No part begins so.
    Damaged,
    /// A part follows of which this would be left out or cut.
    Lost(Loss),
}

/// What follows the parts that were taken.
#[derive(Clone, Copy)]
pub(crate) struct Rest<'a> {
    pub bytes: &'a [u8],
    pub stop: Stop,
}

/// Adds a record to the units, its payload no longer than one may be.
fn take_record(
    vxid: Vxid,
    mark: Mark,
    tag: Tag,
    payload: &[u8],
    units: &mut UnitWriter,
    out: &mut Vec<u8>,
) -> Result<(), NoMemory>
    requires range { vxid < vxid_end }
    requires room { words_of units.old + 1004 ≤ most_words }
    ensures written { (before : List ℕ) (ls : List LoggedRecord) →
        IsWritten units.old out.old.items before ls →
        OnOk result (IsWritten units.new out.new.items before
        (ls ++ filter_map taken_of (says_record vxid tag mark payload.now ∷ []))) }
    ensures words { OnOk result (words_of units.new ≤ words_of units.old + 8 + length payload.now) }
{
    let (payload, _) = payload.split_at(payload.len().min(MAX_PAYLOAD));
    units.add(vxid, mark, tag, payload, out)
}

/// Takes all parts that lie whole in the bytes, or those before the first of which something would be left out or cut, and adds
/// the units of what is taken of them.
pub(crate) fn take_parts<'a>(
    alloc: Global,
    how: How,
    tags: &mut TagCache,
    bytes: &'a [u8],
    counts: &mut Counts,
    out: &mut Vec<u8>,
) -> Result<Rest<'a>, NoMemory>
    requires { length bytes.now ≤ 1000000 }
    ensures taken { IfOk result
        (λ rest. AreTaken how rest.stop bytes.now rest.bytes.now out.old.items out.new.items
        counts.old counts.new) }
    ensures ends { IfOk result (λ rest. EndsWith bytes.now rest.bytes.now) }
{
    let mut units = UnitWriter::new(alloc);
    let mut rest = bytes;
    loop {
        match next_part(how, rest, tags) {
            NextPart::Record {
                vxid,
                mark,
                tag,
                payload,
                behind,
            } => {
                take_record(vxid, mark, tag, payload, &mut units, out)?;
                *counts = counts.with_record(payload.len());
                rest = behind;
            }
            NextPart::Nothing { behind } => {
                *counts = counts.with_part();
                rest = behind;
            }
            NextPart::LeftOut { loss, behind } => {
                *counts = counts.with_part().with_loss(loss);
                rest = behind;
            }
            NextPart::Stop(stop) => {
                units.close(out)?;
                return Ok(Rest { bytes: rest, stop });
            }
        }
    }
}
