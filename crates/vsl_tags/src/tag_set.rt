//! Sets of tags.

ghost use Rattle.std.specs.Prelude.{◌≡◌, ◌+◌, ◌||◌, ℕ, length, IfOk, OnOk, IfErr, false, IfSome, IfNone, Some, None, ◌↔◌, [], ◌∷◌};
ghost use Rattle.vsl_tags.specs.TagSet.{HasTag, IsSelected, element_fault, elements, first_fault, has_tag, matches_any};
ghost use Rattle.vsl_tags.specs.Glob.{matches};
ghost use Rattle.vsl_tags.specs.Tags.{IsTag, tag_name};

use crate::glob::matches;
use crate::names::{LAST, name_of};
use crate::number::Tag;
use thiserror::Error;

/// Why a taglist is refused: its first fault.
#[derive(Clone, Copy, Debug, PartialEq, Eq, Error)]
pub enum TagFault {
    /// An element has no bytes.
    #[error("taglist element at byte {at} is empty")]
    Empty {
        /// The byte where the element begins.
        at: u64,
    },
    /// An element is the name of no tag and matches none, or has a star inside.
    #[error("taglist element at byte {at} is no tag")]
    Unknown {
        /// The byte where the element begins.
        at: u64,
    },
}

/// A place for each tag, and one for 0.
const PLACES: usize = LAST as usize + 1;

/// A set of tags, as `Req*,End` writes one.
#[derive(Clone, Copy, Debug, PartialEq, Eq, Drop)]
pub struct TagSet {
    /// Whether the tag with each number is in the set. No tag has the number 0.
    members: [bool; PLACES],
}

impl TagSet {
    /// Reads a taglist, as `Req*,End`: names, or texts with a star at their beginning, their end or
    /// both, between commas. A star stands for any bytes. Capitals don't count.
    ///
    /// Source: varnishlog(1), `-i`; vsl-query(7), "taglist". Where a star may stand, and that each
    /// element has a tag, are this project's choice.
    pub fn from_list(text: &str) -> Result<TagSet, TagFault>
        ensures tags { IfOk result (λ set. (tag : ℕ) → IsTag tag → HasTag set tag ↔ IsSelected text.now tag) }
        ensures accepted { OnOk result (first_fault text.now ≡ None) }
        ensures refused { IfErr result (λ fault. first_fault text.now ≡ Some fault) }
    {
        let mut set = TagSet::empty();
        let mut rest = text;
        while let Some((element, after)) = cut_element(rest) {
            set.add((text.len() - rest.len()) as u64, element)?;
            rest = after;
        }
        set.add((text.len() - rest.len()) as u64, rest)?;
        Ok(set)
    }

    /// Whether the set has the tag.
    pub fn has(&self, tag: Tag) -> bool
        ensures { result ≡ has_tag self.now tag }
    {
        self.members[usize::from(tag.number())]
    }

    /// The set of no tag.
    fn empty() -> TagSet
        ensures { (n : ℕ) → IsTag n → has_tag result n ≡ false }
    {
        TagSet {
            members: [false; PLACES],
        }
    }

    /// Adds the tags of the element that begins at this byte.
    fn add(&mut self, at: u64, element: &str) -> Result<(), TagFault>
        ensures tags { OnOk result ((n : ℕ) → IsTag n → has_tag self.new n ≡ (has_tag self.old n || matches element.now (tag_name n))) }
        ensures accepted { OnOk result (element_fault at element.now ≡ None) }
        ensures refused { IfErr result (λ fault. element_fault at element.now ≡ Some fault) }
    {
        if element.is_empty() {
            return Err(TagFault::Empty { at });
        }
        if !self.add_matching(element) {
            return Err(TagFault::Unknown { at });
        }
        Ok(())
    }

    /// Adds the tags whose names match, and tells whether there are any.
    fn add_matching(&mut self, element: &str) -> bool
        ensures any { result ≡ matches_any element.now }
        ensures tags { (n : ℕ) → IsTag n → has_tag self.new n ≡ (has_tag self.old n || matches element.now (tag_name n)) }
    {
        let mut found = false;
        for number in 1..=LAST {
            let name = name_of(Tag::of(number));
            let fits = matches(element.as_bytes(), name.as_bytes());
            self.members[usize::from(number)] |= fits;
            found |= fits;
        }
        found
    }
}

/// Cuts a list after its first element: the element, and the list of the others.
fn cut_element(list: &str) -> Option<(&str, &str)>
    ensures cut { IfSome result (λ parts. elements list.now ≡ parts.0.now ∷ elements parts.1.now) }
    ensures bytes { IfSome result (λ parts. length parts.0.now + 1 + length parts.1.now ≡ length list.now) }
    ensures last { IfNone result (elements list.now ≡ list.now ∷ []) }
{
    list.split_once(',')
}
