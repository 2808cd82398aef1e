//! The forms of a log, and how it is copied.

ghost use Rattle.std.specs.Prelude.{◌≡◌, ◌<◌, ◌≤◌, length};
ghost use Rattle.std.specs.Int.{byte_len};
ghost use Rattle.varnish_log.specs.Forms.{layout};
ghost use Rattle.varnish_log.specs.inside.Places.{lacked_places};

/// The forms of Varnish's binary log, by how wide its VXIDs are.
#[derive(Clone, Copy, Debug, PartialEq, Eq)]
pub enum BinaryForm {
    /// Of Varnish 7.0 to 7.2: 30 bits.
    Narrow,
    /// Of Varnish 7.3 and later: 51 bits.
    Wide,
}

/// The forms of a log.
#[derive(Clone, Copy, Debug, PartialEq, Eq)]
pub enum LogForm {
    /// Varnish's binary log, as its varnishlog writes it with `-w`.
    Binary(BinaryForm),
    /// A text, as its varnishlog prints it with `-g raw`.
    Text,
}

/// What is asked of copying a log.
#[derive(Clone, Copy, Debug, PartialEq, Eq)]
pub struct Asked {
    /// Whether the log is a text; else it is a binary log, whose form its first bytes tell.
    pub text: bool,
    /// Whether copying stops before the first part that would be left out or cut.
    pub strict: bool,
}

/// How a log is copied.
#[derive(Clone, Copy, Debug, PartialEq, Eq)]
pub struct How {
    /// The log's form.
    pub form: LogForm,
    /// Whether copying stops before the first part that would be left out or cut.
    pub strict: bool,
}

impl BinaryForm {
    /// What bits 16 to 23 of a record's first word are.
    pub(crate) fn version(self) -> u32
        ensures { result ≡ (layout self).version }
    {
        match self {
            BinaryForm::Narrow => 0,
            BinaryForm::Wide => 1,
        }
    }

    /// How many bytes the number has that tells VXID and mark.
    pub(crate) fn id_size(self) -> usize
        ensures { result ≡ byte_len (layout self).width }
    {
        match self {
            BinaryForm::Narrow => 4,
            BinaryForm::Wide => 8,
        }
    }

    /// One more than the greatest VXID.
    pub(crate) fn vxid_end(self) -> u64
        ensures { result ≡ (layout self).vxid_end }
    {
        match self {
            BinaryForm::Narrow => 0x4000_0000,
            BinaryForm::Wide => 0x8_0000_0000_0000,
        }
    }

    /// The bit of a client's mark; the next is that of a backend's.
    pub(crate) fn client(self) -> u64
        ensures client { result ≡ (layout self).client }
        ensures some { 0 < result }
    {
        match self {
            BinaryForm::Narrow => 0x4000_0000,
            BinaryForm::Wide => 0x4000_0000_0000_0000,
        }
    }

    /// The places in the table of all tags of those that it lacks, in order.
    pub(crate) fn lacked_places(self) -> &'static [u8]
        ensures places { result.now ≡ lacked_places self }
        ensures few { length result.now ≤ 3 }
    {
        match self {
            BinaryForm::Narrow => &[],
            BinaryForm::Wide => &[7, 12, 86],
        }
    }
}
