//! Formats.

ghost use Rattle.std.specs.Prelude.{◌≡◌, ◌≢◌, [], ℕ, List, length, Ok, Err, Some, IfOk, IfErr};
ghost use Rattle.ncsa_format.specs.Format as formats;
ghost use Rattle.ncsa_format.specs.Format.{HasFault, IsFormat};
ghost use Rattle.ncsa_format.specs.Reading.{read_pieces};
ghost use Rattle.ncsa_format.specs.declared.formatter.Piece.{Piece};

use crate::fault::FormatFault;
use crate::reading::{Read, piece_at};
use crate::run::{Draft, Run};
use log_model::NoMemory;
use std::alloc::Global;
use std::marker::Model;

/// The format of a line. Contracts see its pieces.
///
/// Source: varnishncsa(1), "FORMAT".
#[derive(Debug, Drop)]
pub struct Format {
    pub(crate) alloc: Global,
    pub(crate) runs: Vec<Run>,
}

impl Model for Format {
    ghost use Rattle.std.specs.Prelude.{List};
    ghost use Rattle.ncsa_format.specs.declared.formatter.Piece.{Piece};
    ghost use Rattle.ncsa_format.specs.inside.Runs.{pieces_in};

    ghost Value = { List Piece };

    ghost view = { λ f. pieces_in f.runs.items };
}

/// The format that is used where none is given.
///
/// Source: varnishncsa(1), `-F`; this project's choice.
pub fn default_format() -> &'static str
    ensures { result.now ≡ formats.default_format }
{
    "%h %l %u %t \"%r\" %s %b \"%{Referer}i\" \"%{User-agent}i\""
}

impl Format {
    /// Reads the text of a format, as `%h %s`. It is refused where a percent sign begins no formatter.
    ///
    /// Source: varnishncsa(1), "FORMAT"; which texts are refused is this project's choice.
    pub fn parse(alloc: Global, text: &str) -> Result<Format, FormatFault>
        ensures read { IfOk result (λ format. read_pieces text.now ≡ Ok format) }
        ensures format { IfOk result (λ format. IsFormat format text.now) }
        ensures refused { IfErr result (λ fault. HasFault text.now fault) }
    {
        let whole = text.as_bytes();
        let mut draft = Draft::new(alloc);
        let mut rest = whole;
        while let Some((first, behind)) = rest.split_first() {
            let Some(Read { found, rest: after }) = piece_at(alloc, *first, behind)? else {
                let at = (whole.len() - rest.len()) as u64;
                return Err(FormatFault::BadFormat { at });
            };
            draft.push(found)?;
            rest = after;
        }
        let runs = draft.into_runs()?;
        Ok(Format { alloc, runs })
    }
}
