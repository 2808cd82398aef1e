//! The laws of bytes. A law is a function that does nothing.

ghost use Rattle.std.specs.Prelude.{◌<◌, ℕ, slice_index};

/// Bytes are below 256.
pub fn are_bytes(bytes: &[u8])
    ensures { (i : ℕ) → slice_index bytes.now i < 256 }
{}
