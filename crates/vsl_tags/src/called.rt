//! The tag of a name that may be no text.

ghost use Rattle.std.specs.Prelude.{◌≡◌};
ghost use Rattle.vsl_tags.specs.Called.{tag_called};

use crate::names::tag_of;
use crate::number::Tag;
use std::str;

/// The tag of a name, as 53 for `reqmethod`. Capitals don't count, and bytes that are no text are no name.
pub fn tag_called(name: &[u8]) -> Option<Tag>
    ensures { result ≡ tag_called name.now }
{
    match str::from_utf8(name) {
        Ok(name) => tag_of(name),
        Err(_) => None,
    }
}
