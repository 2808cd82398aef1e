//! The bytes of a record.

ghost use Rattle.std.specs.Prelude.{◌≡◌, ◌≤◌, length, IfOk};
ghost use Rattle.vsl_record.specs.Payload.{most_payload, IsPayload};

use std::alloc::{AllocError, Global};
use std::marker::Model;
use vsl_words::are_bytes;

/// The most bytes that a record's payload has. This project's choice.
pub const MAX_PAYLOAD: usize = 4000;

/// What a record says: 0 to 4,000 bytes of any value. Contracts see it as the list of its bytes.
#[derive(Drop)]
pub struct Payload {
    bytes: Vec<u8>,
}

impl Model for Payload {
    ghost use Rattle.std.specs.Prelude.{List, ℕ};
    ghost use Rattle.vsl_record.specs.Payload.{IsPayload};

    ghost Value = { List ℕ };

    ghost view = { λ p. p.bytes.items };

    ghost invariant = { λ p. IsPayload p.bytes.items };
}

impl Payload {
    /// A payload of a copy of these bytes.
    pub fn from_slice(alloc: Global, bytes: &[u8]) -> Result<Payload, AllocError>
        requires { length bytes.now ≤ most_payload }
        ensures { IfOk result (λ payload. payload ≡ bytes.now) }
    {
        are_bytes(bytes);
        let mut copy = Vec::with_capacity(alloc, bytes.len())?;
        copy.extend_from_slice(bytes)?;
        Ok(Payload { bytes: copy })
    }

    /// The bytes, of which there are at most 4,000.
    pub fn as_slice(&self) -> &[u8]
        ensures bytes { result.now ≡ self.now }
        ensures payload { IsPayload self.now }
    {
        &self.bytes
    }
}
