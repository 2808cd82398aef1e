//! The consumer of varnishncsa.

ghost use Rattle.std.specs.Prelude.{◌≡◌, ◌++◌, ◌∷◌, [], false, IfOk, OnOk};
ghost use Rattle.std.specs.List.{filter, flat_map};
ghost use Rattle.ncsa_format.specs.Access.{IsAccessLog, keep_of, output_of};
ghost use Rattle.ncsa_format.specs.Line.{access_text, group_lines, is_logged, line_of, logged_sides};

use crate::format::Format;
use crate::lines::line;
use log_model::{NoMemory, make_room};
use std::alloc::Global;
use std::mem::replace;
use txn_rows::{Group, Kind, Member, Reason};
use vsl_dispatch::{Consumer, Go, Received};
use vsl_record::Unit;
use vsl_select::Sides;

/// For how many bytes there is room at first.
const FIRST_BYTES: usize = 4_096;

/// The most bytes for which room is made before they are there.
const MOST_ROOM: usize = 65_536;

/// Writes a line for each request among groups.
///
/// Source: varnishncsa(1), `-b`, `-c`, `-E`, `-F` and `-k`.
#[derive(Drop)]
pub struct NcsaConsumer {
    alloc: Global,
    format: Format,
    sides: Sides,
    received: Received,
    text: Vec<u8>,
    /// The most bytes that were taken at once, or fewer: for as many there is room with the first group after that.
    usual: usize,
}

/// Whose transactions are logged: without -b, -c and -E those of clients.
fn logged_sides(sides: Sides) -> Sides
    ensures { result ≡ logged_sides sides }
{
    if sides.backend || sides.client || sides.esi {
        sides
    } else {
        Sides {
            backend: false,
            client: true,
            esi: false,
        }
    }
}

/// Whether a transaction is logged.
fn is_logged(sides: Sides, member: &Member) -> bool
    ensures { result ≡ is_logged sides member.now }
{
    let sides = logged_sides(sides);
    match member.kind {
        Kind::Request => (sides.client || sides.esi) && (sides.esi || member.reason != Reason::Esi),
        Kind::BeReq => sides.backend,
        Kind::Session | Kind::Unknown | Kind::Record => false,
    }
}

/// Adds the line of a transaction, where it is logged.
fn put_logged(
    out: &mut Vec<u8>,
    format: &Format,
    sides: Sides,
    member: &Member,
) -> Result<(), NoMemory>
    ensures { OnOk result (out.new.items ≡ out.old.items ++ flat_map (line_of format.now)
        (filter (is_logged sides) (member.now ∷ []))) }
{
    if is_logged(sides, member) {
        line(format, member, out)
    } else {
        Ok(())
    }
}

/// Adds the lines of a group.
fn put_lines(
    out: &mut Vec<u8>,
    format: &Format,
    sides: Sides,
    group: &Group,
) -> Result<(), NoMemory>
    ensures { OnOk result (out.new.items ≡ out.old.items ++
        group_lines format.now sides group.now) }
{
    for member in group.members.as_slice() {
        put_logged(out, format, sides, member)?;
    }
    Ok(())
}

impl NcsaConsumer {
    /// A consumer that received nothing.
    pub fn new(
        alloc: Global,
        format: Format,
        sides: Sides,
        keep: Option<u32>,
    ) -> Result<NcsaConsumer, NoMemory>
        ensures keep { IfOk result (λ c. keep_of c ≡ keep) }
        ensures output { IfOk result
            (λ c. output_of c ≡ (λ groups ended. access_text format sides groups)) }
        ensures new { IfOk result (λ c. IsAccessLog c [] false []) }
    {
        let text = Vec::with_capacity(alloc, FIRST_BYTES)?;
        Ok(NcsaConsumer {
            alloc,
            format,
            sides,
            received: Received::new(keep),
            text,
            usual: 0,
        })
    }
}

impl Consumer for NcsaConsumer {
    ghost keep = { keep_of };

    ghost output = { output_of };

    ghost represents = { λ c groups ended taken. IsAccessLog c groups ended taken };

    fn group(&mut self, group: &Group) -> Result<Go, NoMemory> {
        make_room(&mut self.text, self.usual)?;
        put_lines(&mut self.text, &self.format, self.sides, group)?;
        self.received.add_one()
    }

    fn records(&mut self, _unit: &Unit) -> Result<bool, NoMemory> {
        Ok(false)
    }

    fn end(&mut self) -> Result<(), NoMemory> {
        Ok(())
    }

    fn take_text(&mut self) -> Vec<u8> {
        self.usual = self.usual.max(self.text.len()).min(MOST_ROOM);
        replace(&mut self.text, Vec::new(self.alloc))
    }

    fn text_len(&self) -> usize {
        self.text.len()
    }
}
