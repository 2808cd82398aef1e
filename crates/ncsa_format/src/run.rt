//! The runs of a format, while it is read.

ghost use Rattle.std.specs.Prelude.{◌≡◌, ◌++◌, [], ◌∷◌, map, IfOk, OnOk};
ghost use Rattle.ncsa_format.specs.declared.formatter.Piece.TheVariants as pieces;
ghost use Rattle.ncsa_format.specs.inside.Draft.{drafted};
ghost use Rattle.ncsa_format.specs.inside.Runs.{pieces_in};

use crate::formatter::{Formatter, Piece};
use log_model::NoMemory;
use std::alloc::Global;
use std::mem::replace;

/// A text, or a formatter.
#[derive(Debug, Drop)]
pub(crate) enum Run {
    Text(Vec<u8>),
    Value(Formatter),
}

/// Runs that were read, and the text behind the last formatter.
#[derive(Drop)]
pub(crate) struct Draft {
    alloc: Global,
    runs: Vec<Run>,
    text: Vec<u8>,
}

impl Draft {
    /// Nothing was read.
    pub(crate) fn new(alloc: Global) -> Draft
        ensures { drafted result ≡ [] }
    {
        Draft {
            alloc,
            runs: Vec::new(alloc),
            text: Vec::new(alloc),
        }
    }

    /// The text behind the last formatter becomes a run, where it has a byte.
    fn end_text(&mut self) -> Result<(), NoMemory>
        ensures pieces { OnOk result (pieces_in self.new.runs.items ≡ drafted self.old) }
        ensures text { OnOk result (self.new.text.items ≡ []) }
    {
        if self.text.is_empty() {
            return Ok(());
        }
        let text = replace(&mut self.text, Vec::new(self.alloc));
        if self.runs.push(Run::Text(text)).is_err() {
            return Err(NoMemory);
        }
        Ok(())
    }

    /// A formatter was read.
    fn push_value(&mut self, formatter: Formatter) -> Result<(), NoMemory>
        ensures { OnOk result (drafted self.new ≡ drafted self.old ++ pieces.Value formatter ∷ []) }
    {
        self.end_text()?;
        if self.runs.push(Run::Value(formatter)).is_err() {
            return Err(NoMemory);
        }
        Ok(())
    }

    /// A piece was read.
    pub(crate) fn push(&mut self, piece: Piece) -> Result<(), NoMemory>
        ensures { OnOk result (drafted self.new ≡ drafted self.old ++ piece ∷ []) }
    {
        match piece {
            Piece::Byte(b) => {
                self.text.push(b)?;
                Ok(())
            }
            Piece::Value(formatter) => self.push_value(formatter),
        }
    }

    /// The runs.
    pub(crate) fn into_runs(mut self) -> Result<Vec<Run>, NoMemory>
        ensures { IfOk result (λ runs. pieces_in runs.items ≡ drafted self) }
    {
        self.end_text()?;
        let Draft { runs, .. } = self;
        Ok(runs)
    }
}
