//! The mark of a transaction.

ghost use Rattle.std.specs.Prelude.{◌≡◌, ◌*◌, ◌<◌};
ghost use Rattle.vsl_record.specs.Unit.{vxid_end};
ghost use Rattle.vsl_record.specs.Words.{id_of, mark_number};
ghost use Rattle.vsl_record.specs.inside.UnitReading.{mark_of};

use crate::unit::{VXID_END, Vxid};
use vsl_words::Version;

/// Whose a transaction is, a client's, a backend's or neither's (vsl(7)).
#[derive(Clone, Copy, Debug, PartialEq, Eq)]
pub enum Mark {
    /// A client's, printed `c`.
    Client,
    /// A backend's, printed `b`.
    Backend,
    /// Neither's, printed `-`.
    Plain,
}

impl Mark {
    /// What the mark adds to a VXID in an id of version 2.
    pub fn bits(self) -> u64
        ensures { result ≡ vxid_end * mark_number self }
    {
        match self {
            Mark::Client => VXID_END,
            Mark::Backend => 2 * VXID_END,
            Mark::Plain => 0,
        }
    }

    /// The id of a transaction of this mark in words of version 2: its VXID, and the mark in the two highest bits.
    pub fn id(self, vxid: Vxid) -> u64
        requires { vxid < vxid_end }
        ensures { result ≡ id_of Version.Two vxid self }
    {
        vxid + self.bits()
    }

    /// The mark that an id tells in its two highest bits. Both bits together are no mark; that is tested elsewhere.
    pub(crate) fn of_id(version: Version, id: u64) -> Mark
        ensures { result ≡ mark_of version id }
    {
        match id / version.vxid_end() {
            1 => Mark::Client,
            2 => Mark::Backend,
            _ => Mark::Plain,
        }
    }
}
