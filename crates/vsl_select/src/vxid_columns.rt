//! A VXID in the columns of a raw line.

ghost use Rattle.std.specs.Prelude.{◌≡◌, ◌≤◌, ◌++◌, drop, length, codes, decimal};
ghost use Rattle.vsl_select.specs.RawLine.{at_right};

use itoa::write_digits;
use std::marker::Model;
use vsl_record::Vxid;

/// The most digits of a number of 64 bits.
const DIGITS: usize = 20;

/// How many of them may stand before the columns, which are 10.
const BEFORE: usize = 10;

/// A VXID at the right of 10 columns, and a space: once for all lines of a unit. A longer number begins before the
/// columns. Contracts see the VXID.
#[derive(Drop)]
pub(crate) struct VxidColumns {
    vxid: Vxid,
    /// The VXID at the right of as many columns as it may need, and a space.
    columns: [u8; 21],
    /// Where it begins in them, or where its columns do.
    start: usize,
}

impl Model for VxidColumns {
    ghost use Rattle.std.specs.Prelude.{ℕ, ◌≡◌, ◌≤◌, ◌++◌, drop, codes, decimal};
    ghost use Rattle.vsl_select.specs.RawLine.{at_right};

    ghost Value = { ℕ };

    ghost view = { λ v. v.vxid };

    ghost invariant = { λ v. (v.start ≤ 10)
        × (drop v.start v.columns ≡ at_right 10 (decimal v.vxid) ++ codes " ") };
}

impl VxidColumns {
    /// The columns of this VXID.
    pub(crate) fn new(vxid: Vxid) -> VxidColumns
        ensures { result ≡ vxid }
    {
        let (columns, start) = columns_of(vxid);
        VxidColumns {
            vxid,
            columns,
            start,
        }
    }

    /// The text, in two parts: the digits for which the columns have no room, which few VXIDs have, and the columns with
    /// the space, which are 11 bytes.
    pub(crate) fn parts(&self) -> (&[u8], &[u8])
        ensures text { result.0.now ++ result.1.now ≡ at_right 10 (decimal self.now) ++ codes " " }
        ensures size { length result.1.now ≡ 11 }
    {
        let (before, columns) = self.columns.split_at(BEFORE);
        let (_, digits) = before.split_at(self.start);
        (digits, columns)
    }
}

/// A VXID at the right of as many columns as it may need and a space, and where it or its columns begin.
fn columns_of(vxid: Vxid) -> ([u8; 21], usize)
    ensures start { result.1 ≤ 10 }
    ensures text { drop result.1 result.0 ≡ at_right 10 (decimal vxid) ++ codes " " }
{
    let mut columns = [b' '; 21];
    let first = write_digits(vxid, &mut columns, DIGITS);
    (columns, first.min(BEFORE))
}
