//! A group with the answers of queries.

ghost use Rattle.std.specs.Prelude.{◌≡◌, [], ◌∷◌, ◌++◌, OnOk};

use crate::tests::TestTruths;
use log_model::NoMemory;
use smallvec::SmallVec;
use std::alloc::Global;
use std::marker::Model;
use txn_rows::Group;

/// Whether each of several queries holds, in their order. Contracts see the list.
#[derive(Drop)]
pub struct Truths {
    truths: TestTruths,
}

impl Model for Truths {
    ghost use Rattle.std.specs.Prelude.{List, Bool};

    ghost Value = { List Bool };

    ghost view = { λ t. t.truths.items };
}

impl Truths {
    /// Of no queries. It takes no memory.
    pub fn new(alloc: Global) -> Truths
        ensures { result ≡ [] }
    {
        Truths {
            truths: SmallVec::new(alloc),
        }
    }

    /// Adds whether one query more holds. Up to 16 take no memory.
    pub fn push(&mut self, truth: bool) -> Result<(), NoMemory>
        ensures { OnOk result (self.new ≡ self.old ++ truth ∷ []) }
    {
        self.truths.push(truth)?;
        Ok(())
    }

    pub fn as_slice(&self) -> &[bool]
        ensures { result.now ≡ self.now }
    {
        self.truths.as_slice()
    }
}

/// A group, and for each of several queries, in their order, whether it holds for the group.
#[derive(Drop)]
pub struct Chosen {
    pub group: Group,
    pub holds: Truths,
}
