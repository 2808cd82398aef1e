//! The tags of names, with those that were found last at hand.

ghost use Rattle.std.specs.Prelude.{◌≡◌, ◌<◌};
ghost use Rattle.raw_records.specs.inside.Reading.{tag_called};

use vsl_tags::{Tag, name_of, tag_called};

/// How many tags are kept. With the numbers in `place_of`, nearly all names have places of their own.
const PLACES: usize = 256;

/// Tags that were found, each at the place of its name. They only save time: whatever stands there, a name finds its own tag.
#[derive(Drop)]
pub struct TagCache {
    tags: [Tag; PLACES],
}

/// The place of a name.
fn place_of(name: &[u8]) -> usize
    ensures { result < PLACES }
{
    let size = name.len();
    if size == 0 {
        return 0;
    }
    let first = usize::from(name[0]);
    let middle = usize::from(name[size / 2]);
    let last = usize::from(name[size - 1]);
    (first + 63 * middle + 7 * last + 43 * (size % PLACES)) % PLACES
}

impl TagCache {
    /// Nothing found yet.
    pub fn new() -> TagCache {
        TagCache {
            tags: [Tag::VSL; PLACES],
        }
    }

    /// The tag that a name finds.
    #[tactic(auto, using(crate::proofs::NameLemmas::same_tag))]
    pub(crate) fn tag_called(&mut self, name: &[u8]) -> Option<Tag>
        ensures { result ≡ tag_called name.now }
    {
        let place = place_of(name);
        let found = self.tags[place];
        let _number = found.number();
        if name_of(found).as_bytes().eq_ignore_ascii_case(name) {
            return Some(found);
        }
        let tag = tag_called(name)?;
        self.tags[place] = tag;
        Some(tag)
    }
}
