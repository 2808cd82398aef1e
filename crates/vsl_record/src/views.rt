//! A unit and its records, lent from a buffer of the unit's words.

ghost use Rattle.std.specs.Prelude.{◌≡◌, ◌+◌, ◌*◌, ◌<◌, ◌≤◌, ℕ, List, [], length, slice_get, drop, Some, IfOk};
ghost use Rattle.vsl_record.specs.declared.record_type.Record.{Record};
ghost use Rattle.vsl_record.specs.Unit.{LogUnit};
ghost use Rattle.vsl_record.specs.Views.{Spells, StartsWith};
ghost use Rattle.vsl_record.specs.Words.{id_of, words_in};

use crate::lent::RecordView;
use crate::mark::Mark;
use crate::reading::read_unit_bytes;
use crate::records::Records;
use crate::unit::{TOP_BYTE, Unit, VXID_END, Vxid};
use log_model::NoMemory;
use std::alloc::Global;
use std::marker::Model;
use vsl_tags::Tag;
use vsl_words::{Version, are_bytes, header_word, id_in};

/// A unit that is lent from the bytes of its words. It copies nothing. Contracts see the words.
#[derive(Drop)]
pub struct UnitView<'a> {
    bytes: &'a [u8],
}

impl<'a> Model for UnitView<'a> {
    ghost use Rattle.std.specs.Prelude.{List, ℕ};
    ghost use Rattle.vsl_record.specs.Unit.{LogUnit};
    ghost use Rattle.vsl_record.specs.Views.{Spells};
    ghost use Rattle.vsl_record.specs.Words.{words_in};

    ghost Value = { List ℕ };

    ghost view = { λ v. words_in v.bytes.now };

    ghost invariant = { λ v. (u : LogUnit) × Spells (words_in v.bytes.now) u };
}

/// The record whose words begin these bytes, and the bytes behind them.
fn first_view(bytes: &[u8]) -> (RecordView<'_>, &[u8])
    requires { (rec : Record) × (rest : List ℕ) × StartsWith (words_in bytes.now) rec rest }
    ensures record { (rec : Record) (rest : List ℕ) → StartsWith (words_in bytes.now) rec rest →
        result.0 ≡ rec }
    ensures shorter { length result.1.now < length bytes.now }
    ensures rest { (rec : Record) (rest : List ℕ) → StartsWith (words_in bytes.now) rec rest →
        words_in result.1.now ≡ rest }
{
    are_bytes(bytes);
    let head = header_word(bytes);
    let Some(tag) = Tag::from_number((head / TOP_BYTE) as u8) else {
        unreachable!()
    };
    let length = (head % TOP_BYTE) as usize;
    let (_, behind) = bytes.split_at(4);
    let mark = Mark::of_id(Version::Two, id_in(Version::Two, behind));
    let (_, behind_id) = behind.split_at(8);
    let (held, rest) = behind_id.split_at(4 * ((length + 3) / 4));
    let (payload, _) = held.split_at(length);
    (RecordView::new(tag, mark, payload), rest)
}

impl<'a> UnitView<'a> {
    /// The unit whose words these bytes are, the lowest byte of each word first.
    pub fn new(bytes: &'a [u8]) -> UnitView<'a>
        requires { (u : LogUnit) × Spells (words_in bytes.now) u }
        ensures { result ≡ words_in bytes.now }
    {
        UnitView { bytes }
    }

    /// The bytes behind the unit's header.
    fn body(&self) -> &'a [u8]
        ensures words { words_in result.now ≡ drop 1 self.now }
        ensures unit { (u : LogUnit) × Spells self.now u }
    {
        let (_, body) = self.bytes.split_at(4);
        body
    }

    /// The id of every record.
    fn id(&self) -> u64
        ensures { (u : LogUnit) → Spells self.now u → result ≡ id_of Version.Two u.vxid u.mark }
    {
        let (_, ids) = self.body().split_at(4);
        id_in(Version::Two, ids)
    }

    /// The VXID.
    pub fn vxid(&self) -> Vxid
        ensures { (u : LogUnit) → Spells self.now u → result ≡ u.vxid }
    {
        self.id() % VXID_END
    }

    /// The mark of every record.
    pub fn mark(&self) -> Mark
        ensures { (u : LogUnit) → Spells self.now u → result ≡ u.mark }
    {
        Mark::of_id(Version::Two, self.id())
    }

    /// How many records the unit has: at least one. It walks over them.
    pub fn len(&self) -> usize
        ensures { (u : LogUnit) → Spells self.now u → result ≡ length u.records }
    {
        let mut count = 0;
        let mut rest = self.body();
        while rest.len() >= 4 {
            count += 1;
            (_, rest) = first_view(rest);
        }
        count
    }

    /// The record at this place, from 0. It walks over those before it.
    pub fn item(&self, place: usize) -> RecordView<'a>
        requires { (u : LogUnit) → Spells self.now u → place < length u.records }
        ensures { (u : LogUnit) (rec : Record) → Spells self.now u →
            slice_get u.records place ≡ Some rec → result ≡ rec }
    {
        let mut rest = self.body();
        for _ in 0..place {
            (_, rest) = first_view(rest);
        }
        let (view, _) = first_view(rest);
        view
    }

    /// A copy of the unit.
    pub fn to_unit(&self, alloc: Global) -> Result<Unit, NoMemory>
        ensures { (u : LogUnit) → Spells self.now u → IfOk result (λ unit. unit ≡ u) }
    {
        match read_unit_bytes(Version::Two, Records::new(alloc), self.bytes) {
            Ok((unit, _)) => Ok(unit),
            Err(_) => Err(NoMemory),
        }
    }
}
