//! What tells the versions of a unit's words apart.

ghost use Rattle.std.specs.Prelude.{◌≡◌};
ghost use Rattle.vsl_words.specs.Versions.{id_size, most_words_of, vxid_end_of};

/// A version of a unit's words. All versions have one layout; a version says how many words an id takes, which tells
/// whose a record is.
#[derive(Clone, Copy, Debug, PartialEq, Eq)]
pub enum Version {
    /// An id is one word. Such words are read, and written no more.
    One,
    /// An id is two words.
    Two,
}

impl Version {
    /// How many words an id takes.
    pub fn id_size(self) -> usize
        ensures { result ≡ id_size self }
    {
        match self {
            Version::One => 1,
            Version::Two => 2,
        }
    }

    /// One more than the highest VXID.
    pub fn vxid_end(self) -> u64
        ensures { result ≡ vxid_end_of self }
    {
        match self {
            Version::One => 1_073_741_824,
            Version::Two => 4_611_686_018_427_387_904,
        }
    }

    /// The most words of a unit.
    pub fn most_words(self) -> usize
        ensures { result ≡ most_words_of self }
    {
        match self {
            Version::One => 1_048_576,
            Version::Two => 2_097_152,
        }
    }
}
