//! The bytes that a prefix or an operand stands for.

ghost use Rattle.std.specs.Prelude.{◌≡◌, false, IfOk};
ghost use Rattle.query_grammar.specs.Criterion.{operand_meaning, unescaped};

use std::alloc::{AllocError, Global};
use std::marker::Model;

/// The bytes that a prefix or an operand stands for, without quotes and the backslashes that escape. Contracts see the list.
#[derive(Debug, Drop)]
pub struct Literal {
    bytes: Vec<u8>,
}

impl Model for Literal {
    ghost use Rattle.std.specs.Prelude.{List, ℕ};

    ghost Value = { List ℕ };

    ghost view = { λ l. l.bytes.items };
}

impl Literal {
    /// What a word, or a text between quotes, stands for.
    pub(crate) fn read(alloc: Global, written: &[u8]) -> Result<Literal, AllocError>
        ensures { IfOk result (λ l. l ≡ operand_meaning written.now) }
    {
        let [b'"' | b'\'', inner @ ..] = written else {
            let bytes = written.to_vec(alloc)?;
            return Ok(Literal { bytes });
        };
        let (inside, _) = inner.split_at(inner.len().saturating_sub(1));
        let bytes = unescape(alloc, inside)?;
        Ok(Literal { bytes })
    }

    pub fn as_slice(&self) -> &[u8]
        ensures { result.now ≡ self.now }
    {
        &self.bytes
    }
}

/// The bytes between quotes, without the backslashes that take a byte as it is.
fn unescape(alloc: Global, text: &[u8]) -> Result<Vec<u8>, AllocError>
    ensures { IfOk result (λ v. v.items ≡ unescaped false text.now) }
{
    let mut bytes = Vec::new(alloc);
    let mut escaped = false;
    for byte in text {
        if *byte == b'\\' && !escaped {
            escaped = true;
            continue;
        }
        bytes.push(*byte)?;
        escaped = false;
    }
    Ok(bytes)
}
