//! The words of a unit, taken one by one.

ghost use Rattle.std.specs.Prelude.{◌≡◌, ◌∷◌, [], IfSome, IfNone};
ghost use Rattle.vsl_record.specs.Words.{unit_words};

use crate::lent::RecordsView;
use crate::unit::{Unit, Vxid};
use crate::writing::{high_word, low_word};
use std::marker::Model;
use vsl_words::{behind_first, first_packed};

/// The words of a unit from its header on, each record looked at once. Contracts see those that are left.
#[derive(Drop)]
pub struct UnitWords<'a> {
    vxid: Vxid,
    /// A unit's header, or the lower word of a record's id.
    pending: Option<u32>,
    /// The higher word of the id.
    high: Option<u32>,
    /// What is left of a record's payload.
    payload: &'a [u8],
    /// The records behind it.
    records: RecordsView<'a>,
}

impl<'a> Model for UnitWords<'a> {
    ghost use Rattle.std.specs.Prelude.{◌≡◌, List, ℕ, ◌<◌, ◌++◌, None, option_to_list};
    ghost use Rattle.std.specs.List.{flat_map};
    ghost use Rattle.vsl_record.specs.Unit.{vxid_end};
    ghost use Rattle.vsl_record.specs.Words.{packed, record_words};

    ghost Value = { List ℕ };

    ghost view = { λ w. option_to_list w.pending ++ option_to_list w.high ++ packed w.payload.now ++
        flat_map (record_words w.vxid) w.records };

    ghost invariant = { λ w. (w.vxid < vxid_end) × (w.pending ≡ None → w.high ≡ None) };
}

impl Unit {
    /// The words of the unit, from its header on.
    pub fn each_word(&self) -> UnitWords<'_>
        ensures { result ≡ unit_words self.now }
    {
        UnitWords {
            vxid: self.vxid(),
            pending: Some(self.header_word()),
            high: None,
            payload: &[],
            records: self.records(),
        }
    }
}

impl UnitWords<'_> {
    /// Takes the next word.
    pub fn next(&mut self) -> Option<u32>
        ensures word { IfSome result (λ word. self.old ≡ word ∷ self.new) }
        ensures none { IfNone result (self.old ≡ []) }
    {
        if let Some(word) = self.pending {
            self.pending = self.high.take();
            return Some(word);
        }
        if let [a, b, c, d, rest @ ..] = self.payload {
            self.payload = rest;
            return Some(u32::from_le_bytes([*a, *b, *c, *d]));
        }
        if !self.payload.is_empty() {
            let word = first_packed(self.payload);
            self.payload = behind_first(self.payload);
            return Some(word);
        }
        if self.records.is_empty() {
            return None;
        }
        let first = self.records.get(0);
        let (_, others) = self.records.split_at(1);
        self.records = others;
        let id = first.mark().id(self.vxid);
        self.pending = Some(low_word(id));
        self.high = Some(high_word(id));
        self.payload = first.payload();
        Some(first.head_word())
    }
}
