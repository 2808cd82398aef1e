//! One record of a log.

ghost use Rattle.std.specs.Prelude.{◌≡◌, ◌<◌, ◌≤◌, ℕ, length, IfOk, OnOk};
ghost use Rattle.vsl_record.specs.Payload.{most_payload};

use crate::fault::RecordFault;
use crate::lent::RecordView;
use crate::mark::Mark;
use crate::payload::{MAX_PAYLOAD, Payload};
use std::alloc::Global;
use vsl_tags::Tag;

/// What a worker writes of one event: what it is about, its mark, and its bytes (vsl(7)).
#[derive(Drop)]
pub struct Record {
    /// What the record is about.
    pub tag: Tag,
    /// The mark of its transaction.
    pub mark: Mark,
    /// What it says.
    pub payload: Payload,
}

impl Record {
    /// A record with a copy of these bytes.
    pub fn new(alloc: Global, tag: Tag, mark: Mark, payload: &[u8]) -> Result<Record, RecordFault>
        ensures made { IfOk result (λ r. (r.tag ≡ tag) × (r.mark ≡ mark) ×
            (r.payload ≡ payload.now)) }
        ensures short { OnOk result (length payload.now ≤ most_payload) }
        ensures too_long { most_payload < length payload.now →
            result ≡ Err (RecordFault.TooLong (length payload.now)) }
        ensures refused { (bytes : ℕ) → result ≡ Err (RecordFault.TooLong bytes) →
            (most_payload < length payload.now) × (bytes ≡ length payload.now) }
    {
        if payload.len() > MAX_PAYLOAD {
            return Err(RecordFault::TooLong {
                bytes: payload.len() as u64,
            });
        }
        Ok(Record {
            tag,
            mark,
            payload: Payload::from_slice(alloc, payload)?,
        })
    }

    /// The record, lent.
    pub fn view(&self) -> RecordView<'_>
        ensures { result ≡ self.now }
    {
        RecordView::new(self.tag, self.mark, self.payload.as_slice())
    }
}
