//! Where a row stands in its tree.

ghost use Rattle.std.specs.Prelude.{◌≡◌, [], ◌∷◌, ◌++◌, IfOk};

use std::alloc::{AllocError, Global};
use std::marker::Model;

/// At each level which child it is, from the top down. Contracts see the list.
#[derive(Drop)]
pub struct Path {
    numbers: Vec<u64>,
}

impl Model for Path {
    ghost use Rattle.std.specs.Prelude.{List, ℕ};

    ghost Value = { List ℕ };

    ghost view = { λ p. p.numbers.items };
}

impl Path {
    /// The path of a row at the top. It takes no memory.
    pub(crate) fn new(alloc: Global) -> Path
        ensures { result ≡ [] }
    {
        Path {
            numbers: Vec::new(alloc),
        }
    }

    pub(crate) fn to_owned(&self, alloc: Global) -> Result<Path, AllocError>
        ensures { IfOk result (λ path. path ≡ self.now) }
    {
        Ok(Path {
            numbers: Vec::from_slice(alloc, &self.numbers)?,
        })
    }

    pub(crate) fn as_slice(&self) -> &[u64]
        ensures { result.now ≡ self.now }
    {
        &self.numbers
    }

    /// The path of a row below the child of this number, whose path was another. It takes memory once.
    pub(crate) fn below(&self, alloc: Global, number: u64, rest: &Path) -> Result<Path, AllocError>
        ensures { IfOk result (λ path. path ≡ self.now ++ number ∷ rest.now) }
    {
        let mut numbers = Vec::with_capacity(alloc, self.numbers.len() + 1 + rest.numbers.len())?;
        numbers.extend_from_slice(&self.numbers)?;
        numbers.push(number)?;
        numbers.extend_from_slice(&rest.numbers)?;
        Ok(Path { numbers })
    }
}
