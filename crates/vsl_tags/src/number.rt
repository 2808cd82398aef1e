//! The numbers of tags.

ghost use Rattle.std.specs.Prelude.{◌≡◌, IfSome, OnSome, IfNone};
ghost use Rattle.vsl_tags.specs.Tags.{IsTag};

use crate::names::LAST;
use std::marker::Model;

/// What a record is about, as `Begin` or `ReqMethod`. Contracts see it as its number.
///
/// Source: vsl(7), in this project's subset. The numbers are this project's choice.
#[derive(Clone, Copy, PartialEq, Eq, PartialOrd, Ord, Debug, Drop)]
pub struct Tag {
    /// From 1 to `LAST`.
    number: u8,
}

impl Model for Tag {
    ghost use Rattle.std.specs.Prelude.{ℕ};
    ghost use Rattle.vsl_tags.specs.Tags.{IsTag};

    ghost Value = { ℕ };

    ghost view = { λ t. t.number };

    ghost invariant = { λ t. IsTag t.number };

    ghost inverse = { λ n. record { number = n } };
}

impl Tag {
    /// `Timestamp`, a time that a transaction tells.
    pub const TIMESTAMP: Tag = Tag { number: 41 };

    /// `Begin`, with which a transaction begins.
    pub const BEGIN: Tag = Tag { number: 42 };

    /// `Link`, with which a transaction names a child.
    pub const LINK: Tag = Tag { number: 43 };

    /// `End`, with which a transaction ends.
    pub const END: Tag = Tag { number: 44 };

    /// `VSL`, a message of the log itself.
    pub const VSL: Tag = Tag { number: 45 };

    /// The tag with this number, as 42 for `Begin`.
    pub fn from_number(n: u8) -> Option<Tag>
        ensures number { IfSome result (λ tag. tag ≡ n) }
        ensures accepted { OnSome result (IsTag n) }
        ensures refused { IfNone result (¬ (IsTag n)) }
    {
        if n == 0 || n > LAST {
            return None;
        }
        Some(Tag { number: n })
    }

    /// The tag with this number, which is a tag's.
    pub(crate) fn of(n: u8) -> Tag
        requires { IsTag n }
        ensures { result ≡ n }
    {
        Tag { number: n }
    }

    /// The number, as 42 for `Begin`.
    pub fn number(self) -> u8
        ensures same { result ≡ self }
        ensures tag { IsTag result }
    {
        self.number
    }
}
