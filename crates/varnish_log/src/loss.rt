//! What is left out of a log, or cut, and how often.

ghost use Rattle.std.specs.Prelude.{◌≡◌};
ghost use Rattle.varnish_log.specs.Counting.{count_of, none_counted, with_loss, with_part};
ghost use Rattle.varnish_log.specs.inside.Views.{with_record};

use vsl_record::MAX_PAYLOAD;

/// What is left out of a log, or cut, since this project has no room for it.
#[derive(Clone, Copy, Debug, PartialEq, Eq)]
pub enum Loss {
    /// A record of a tag that this project doesn't have.
    UnknownTag,
    /// A payload of more than 4,000 bytes, of which the first 4,000 are taken.
    LongPayload,
    /// A line of a text with a VXID of more than 19 digits, or of 2^62 or more.
    OtherVxid,
    /// A line of a text that begins as those of another grouping than `raw`.
    OtherGrouping,
    /// A line of a text that has another form, as what stands behind a payload's line feed.
    OtherForm,
}

/// How many parts of a log came, records of a binary one or lines of a text, and how much of them was left out or cut; at
/// 2^64 - 1 a count stands still.
#[derive(Clone, Copy, Debug, PartialEq, Eq)]
pub struct Counts {
    /// Parts in all.
    pub parts: u64,
    /// Records of tags that this project doesn't have.
    pub unknown_tags: u64,
    /// Records of which only the first 4,000 bytes were taken.
    pub long_payloads: u64,
    /// Lines with another VXID.
    pub other_vxids: u64,
    /// Lines of other groupings.
    pub other_groupings: u64,
    /// Lines of another form.
    pub other_forms: u64,
}

impl Counts {
    /// Nothing counted yet.
    pub(crate) fn none() -> Counts
        ensures { result ≡ none_counted }
    {
        Counts {
            parts: 0,
            unknown_tags: 0,
            long_payloads: 0,
            other_vxids: 0,
            other_groupings: 0,
            other_forms: 0,
        }
    }

    /// How often this was left out or cut.
    pub fn of(self, loss: Loss) -> u64
        ensures { result ≡ count_of loss self }
    {
        match loss {
            Loss::UnknownTag => self.unknown_tags,
            Loss::LongPayload => self.long_payloads,
            Loss::OtherVxid => self.other_vxids,
            Loss::OtherGrouping => self.other_groupings,
            Loss::OtherForm => self.other_forms,
        }
    }

    /// With a part more.
    pub(crate) fn with_part(self) -> Counts
        ensures { result ≡ with_part self }
    {
        Counts {
            parts: self.parts.saturating_add(1),
            ..self
        }
    }

    /// With a record more that was taken, with a payload of so many bytes.
    pub(crate) fn with_record(self, size: usize) -> Counts
        ensures { result ≡ with_record size self }
    {
        let counts = self.with_part();
        if size > MAX_PAYLOAD {
            return counts.with_loss(Loss::LongPayload);
        }
        counts
    }

    /// With this left out or cut once more.
    pub(crate) fn with_loss(self, loss: Loss) -> Counts
        ensures { result ≡ with_loss loss self }
    {
        let more = self.of(loss).saturating_add(1);
        match loss {
            Loss::UnknownTag => Counts {
                unknown_tags: more,
                ..self
            },
            Loss::LongPayload => Counts {
                long_payloads: more,
                ..self
            },
            Loss::OtherVxid => Counts {
                other_vxids: more,
                ..self
            },
            Loss::OtherGrouping => Counts {
                other_groupings: more,
                ..self
            },
            Loss::OtherForm => Counts {
                other_forms: more,
                ..self
            },
        }
    }
}
