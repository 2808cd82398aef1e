//! What is counted.

ghost use Rattle.std.specs.Prelude.{◌≡◌, ◌∷◌, IfOk};
ghost use Rattle.std.specs.Cmp.{on_equiv, on_per};
ghost use Rattle.std.specs.Hash as fed;
ghost use Rattle.vsl_tags.specs.Tags.{IsTag};
ghost use Rattle.vsl_top.specs.Report.{is_same};
ghost use Rattle.vsl_top.specs.inside.Keys.{key_in, same_equiv, same_fed, same_per};

use indexmap::Equivalent;
use log_model::NoMemory;
use std::alloc::Global;
use std::hash::{Hash, Hasher};
use std::marker::Model;
use vsl_tags::Tag;

/// A tag with a text, which is owned. Contracts see it as a key of the report.
#[derive(Drop)]
pub(crate) struct Key {
    tag: Tag,
    text: Vec<u8>,
}

impl Model for Key {
    ghost use Rattle.vsl_tags.specs.Tags.{IsTag};
    ghost use Rattle.vsl_top.specs.Report as report;

    ghost Value = { report.Key };

    ghost view = { λ k. record { tag = k.tag; text = k.text.items } };

    ghost invariant = { λ k. IsTag k.tag };
}

/// A tag with a text that is lent, by which a key is looked up.
#[derive(Clone, Copy)]
pub(crate) struct KeyParts<'a> {
    pub(crate) tag: Tag,
    pub(crate) text: &'a [u8],
}

impl Key {
    /// A key with a copy of the text.
    pub(crate) fn new(alloc: Global, tag: Tag, text: &[u8]) -> Result<Key, NoMemory>
        ensures { IfOk result (λ key. key ≡ record { tag = tag; text = text.now }) }
    {
        let _number = tag.number();
        let mut bytes = Vec::new(alloc);
        bytes.extend_from_slice(text)?;
        Ok(Key { tag, text: bytes })
    }

    /// The tag and the text.
    pub(crate) fn parts(&self) -> KeyParts<'_>
        ensures parts { key_in result ≡ self.now }
        ensures tag { IsTag self.now.tag }
    {
        KeyParts {
            tag: self.tag,
            text: &self.text,
        }
    }
}

impl PartialEq for KeyParts<'_> {
    ghost eq = { λ a b. is_same (key_in a) (key_in b) };

    ghost laws = { on_per key_in same_per };

    fn eq(&self, other: &Self) -> bool {
        self.tag.number() == other.tag.number() && self.text == other.text
    }
}

impl Eq for KeyParts<'_> {
    ghost laws = { on_equiv key_in same_equiv };
}

impl Hash for KeyParts<'_> {
    ghost hash_input = { λ k. k.text.now ∷ fed.u8 k.tag };

    ghost respects_eq = { λ a b. same_fed (key_in a) (key_in b) };

    fn hash<H: Hasher>(&self, state: &mut H) {
        state.write(self.text);
        state.write_u8(self.tag.number());
    }
}

impl PartialEq for Key {
    ghost eq = { is_same };

    ghost laws = { same_per };

    fn eq(&self, other: &Self) -> bool {
        self.parts() == other.parts()
    }
}

impl Eq for Key {
    ghost laws = { same_equiv };
}

impl Hash for Key {
    ghost hash_input = { λ k. k.text ∷ fed.u8 k.tag };

    ghost respects_eq = { same_fed };

    fn hash<H: Hasher>(&self, state: &mut H) {
        self.parts().hash(state);
    }
}

impl Equivalent<Key> for &KeyParts<'_> {
    ghost equivalent = { λ q k. is_same (key_in q.now) k };

    ghost respects_hash = { λ q k. same_fed (key_in q.now) k };

    ghost respects_eq = { λ q. same_equiv.congr (key_in q.now) };

    fn equivalent(&self, key: &Key) -> bool {
        **self == key.parts()
    }
}
