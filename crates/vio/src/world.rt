//! The calls that reach outside, and the rules that every world keeps.

ghost use Rattle.std.specs.Prelude.{◌≡◌, ◌<◌, ◌≤◌, ℕ, [], take, length, IfOk, OnErr};
ghost use Rattle.std.specs.Result.{IsErrOf};
ghost use Rattle.log_model.specs.Faults.{HasNewFault};
ghost use Rattle.vio.specs.World.{Seen, Opening, Creating, Reading, Writing, Opened, FileCreated, Read, Wrote, OnlyCounts, FaultsRose, NoNewFaults, IsAtEnd, HasStreams};

use crate::fault::{Failed, WorldFault};

/// The handle of standard input.
pub const INPUT: u32 = 0;

/// The handle of standard output.
pub const OUTPUT: u32 = 1;

/// The handle of standard error.
pub const ERRORS: u32 = 2;

/// A file that was opened for writing.
#[derive(Clone, Copy, Debug, PartialEq, Eq)]
pub struct Created {
    /// Its handle.
    pub handle: u32,
    /// Whether the file has no bytes yet.
    pub empty: bool,
}

/// Files and standard streams.
///
/// Handles 0, 1 and 2 are standard input, output and error. No call lowers a count of faults, and a
/// call on one handle leaves the others as they are. A refused call changes counts alone. No `Send` is asked of it:
/// what reads and writes stays on the thread of the caller, and only workers go to others.
pub trait World {
    /// What the world tells: its files, what each handle has left and took, and its counts of faults.
    ghost seen: { Self → Seen };

    /// Opens a file for reading, and gives a handle that was never given before.
    fn open(&mut self, name: &str) -> Result<u32, WorldFault>
        ensures ok { IfOk result (λ h. Opened name.now h (seen self.old) (seen self.new)) }

        ensures err { OnErr result (OnlyCounts (seen self.old) (seen self.new)) }
        ensures failed { IsErrOf result WorldFault.Failed →
            HasNewFault ((seen self.old).faults Opening name.now) ((seen self.new).faults Opening name.now) }
        ensures memory { IsErrOf result WorldFault.NoMemory → NoNewFaults (seen self.old) (seen self.new) };

    /// Opens a file for writing, which needn't be there, and gives a handle that was never given before.
    /// The file is emptied unless `append`.
    fn create(&mut self, name: &str, append: bool) -> Result<Created, WorldFault>
        ensures ok { IfOk result (λ c. FileCreated append name.now c.handle c.empty (seen self.old) (seen self.new)) }

        ensures err { OnErr result (OnlyCounts (seen self.old) (seen self.new)) }
        ensures failed { IsErrOf result WorldFault.Failed →
            HasNewFault ((seen self.old).faults Creating name.now) ((seen self.new).faults Creating name.now) }
        ensures memory { IsErrOf result WorldFault.NoMemory → NoNewFaults (seen self.old) (seen self.new) };

    /// Reads bytes into the first part of `buf`: at least one, or none at the end or for an empty `buf`.
    fn read(&mut self, h: u32, buf: &mut [u8]) -> Result<usize, Failed>
        ensures fits { IfOk result (λ n. n ≤ length buf.old) }
        ensures ok { IfOk result (λ n. Read h (take n buf.new) (seen self.old) (seen self.new)) }
        ensures some { IfOk result (λ n. n ≡ 0 → 0 < length buf.old → IsAtEnd h (seen self.old)) }
        ensures end { IfOk result (λ n. n ≡ 0 → 0 < length buf.old → IsAtEnd h (seen self.new)) }

        ensures err { OnErr result (OnlyCounts (seen self.old) (seen self.new)) }
        ensures failed { OnErr result (FaultsRose Reading h (seen self.old) (seen self.new)) };

    /// Writes a prefix of the piece: at least one byte of a piece that isn't empty.
    fn write(&mut self, h: u32, piece: &[u8]) -> Result<usize, WorldFault>
        ensures fits { IfOk result (λ n. n ≤ length piece.now) }
        ensures ok { IfOk result (λ n. Wrote h (take n piece.now) (seen self.old) (seen self.new)) }
        ensures some { IfOk result (λ n. 0 < length piece.now → 0 < n) }

        ensures err { OnErr result (OnlyCounts (seen self.old) (seen self.new)) }
        ensures failed { IsErrOf result WorldFault.Failed → FaultsRose Writing h (seen self.old) (seen self.new) }
        ensures memory { IsErrOf result WorldFault.NoMemory → NoNewFaults (seen self.old) (seen self.new) };

    /// The standard streams have their names, whatever was called.
    ghost streams: { (w : Self) → HasStreams (seen w) };
}
