//! A line of the report.
#![tactic(auto, using(log_model::proofs::PrefixLemmas::adding))]

ghost use Rattle.std.specs.Prelude.{◌≡◌, map};
ghost use Rattle.std.specs.List.{flat_map};
ghost use Rattle.log_model.specs.Adding.{Puts};
ghost use Rattle.vsl_top.specs.Report.{line_text};
ghost use Rattle.vsl_top.specs.inside.Lines.{IsRanked, line_in};

use crate::key::Key;
use log_model::NoMemory;
use std::cmp::Reverse;
use vsl_select::{put_right, tag_line};
use vsl_tags::{Tag, rank_of};

/// The columns of a count.
const COUNT_COLUMNS: usize = 10;

/// A key with its count. The first is the one with the highest count, then the one whose tag's name has the lowest rank, then by
/// the text.
#[derive(Clone, Copy)]
#[derive_where(PartialEq, Eq, PartialOrd, Ord)]
pub(crate) struct Line<'a> {
    count: Reverse<u64>,
    rank: u8,
    text: &'a [u8],
    #[derive_where(skip(EqHashOrd))]
    tag: Tag,
}

impl<'a> Line<'a> {
    /// The line of a key with this count.
    pub(crate) fn new(key: &'a Key, count: u64) -> Line<'a>
        ensures line { line_in result ≡ record { count = count; key = key.now } }
        ensures ranked { IsRanked result }
    {
        let parts = key.parts();
        Line {
            count: Reverse(count),
            rank: rank_of(parts.tag),
            text: parts.text,
            tag: parts.tag,
        }
    }

    /// Adds the text of the line, or a part of it.
    pub(crate) fn put(&self, out: &mut Vec<u8>) -> Result<(), NoMemory>
        ensures { Puts result out.old.items out.new.items (line_text (line_in self.now)) }
    {
        put_right(COUNT_COLUMNS, self.count.0, out)?;
        out.push(b' ')?;
        tag_line(self.tag, self.text, out)
    }
}

/// Adds the texts of lines, or a part of them.
pub(crate) fn put_lines(lines: &[Line<'_>], out: &mut Vec<u8>) -> Result<(), NoMemory>
    ensures { Puts result out.old.items out.new.items (flat_map line_text (map line_in lines.now)) }
{
    for line in lines {
        line.put(out)?;
    }
    Ok(())
}
