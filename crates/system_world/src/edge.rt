//! What the system's calls answer, as answers of a world. Beside these functions nothing is decided
//! about an answer: each other function at the edge makes one call.

ghost use Rattle.std.specs.Prelude.{◌≡◌, ◌==◌, ◌≤◌, ◌+◌, ◌++◌, ◌∷◌, [], ◌↔◌, length, is_err, IfOk, IfErr, OnOk, OnErr, IsErr};
ghost use Rattle.std.specs.Fs.{metadata_len};
ghost use Rattle.std.specs.Result.{IsErrOf};
ghost use Rattle.system_world.specs.inside.Edge.{counted, answer_to_write, creates};

use std::fs::{File, Metadata, OpenOptions};
use std::io;
use vio::{Created, Failed, WorldFault};

/// The first handle of a file, after those of the standard streams.
pub const FIRST_FILE: usize = 3;

/// What a read answers: the system's count, or a failure where the system answers an error.
pub fn read_answer(given: io::Result<usize>, faults: &mut u64) -> Result<usize, Failed>
    ensures done { IfOk given (λ n. result ≡ Ok n) }
    ensures refused { OnErr given (IsErr result) }
    ensures counted { faults.new ≡ counted (is_err given) faults.old }
    ensures grew { faults.old ≤ faults.new }
{
    match given {
        Ok(n) => Ok(n),
        Err(_) => {
            *faults = faults.saturating_add(1);
            Err(Failed)
        }
    }
}

/// What a write of a piece answers: the system's count, or a failure where the system answers an error,
/// or 0 for a piece that isn't empty.
pub fn write_answer(
    given: io::Result<usize>,
    piece: &[u8],
    faults: &mut u64,
) -> Result<usize, WorldFault>
    ensures answer { result ≡ answer_to_write given (length piece.now) }
    ensures counted { faults.new ≡ counted (is_err result) faults.old }
    ensures grew { faults.old ≤ faults.new }
{
    match given {
        Ok(n) if n > 0 || piece.is_empty() => Ok(n),
        _ => {
            *faults = faults.saturating_add(1);
            Err(WorldFault::Failed)
        }
    }
}

/// What opening a file answers: its handle, or a failure where the system answers an error.
pub fn open_answer(
    given: io::Result<File>,
    files: &mut Vec<File>,
    faults: &mut u64,
) -> Result<u32, WorldFault>
    ensures handle { IfOk result (λ h. h ≡ FIRST_FILE + length files.old.items) }
    ensures kept { IfOk given (λ file. OnOk result (files.new.items ≡ files.old.items ++ file ∷ [])) }
    ensures same { OnErr result (files.new.items ≡ files.old.items) }
    ensures failed { IsErrOf result WorldFault.Failed ↔ IsErr given }
    ensures counted { faults.new ≡ counted (is_err given) faults.old }
    ensures grew { faults.old ≤ faults.new }
{
    let Ok(file) = given else {
        *faults = faults.saturating_add(1);
        return Err(WorldFault::Failed);
    };
    keep_file(file, files)
}

/// How a file is opened for writing: it is created where it isn't there, and emptied unless `append`.
pub fn how_to_create(append: bool) -> OpenOptions
    ensures how { result ≡ creates append }
{
    let mut how = OpenOptions::new();
    how.write(true)
        .create(true)
        .append(append)
        .truncate(!append);
    how
}

/// Whether a file of which the system says this has no bytes.
pub fn has_no_bytes(about: &Metadata) -> bool
    ensures { result ≡ (metadata_len about.now == 0) }
{
    about.len() == 0
}

/// What creating a file answers: its handle, and whether it has no bytes, or a failure where the system
/// answers an error.
pub fn create_answer(
    given: io::Result<(File, bool)>,
    files: &mut Vec<File>,
    faults: &mut u64,
) -> Result<Created, WorldFault>
    ensures handle { IfOk result (λ c. c.handle ≡ FIRST_FILE + length files.old.items) }
    ensures empty { IfOk given (λ made. IfOk result (λ c. c.empty ≡ made.1)) }
    ensures kept { IfOk given (λ made. OnOk result (files.new.items ≡ files.old.items ++ made.0 ∷ [])) }
    ensures same { OnErr result (files.new.items ≡ files.old.items) }
    ensures failed { IsErrOf result WorldFault.Failed ↔ IsErr given }
    ensures counted { faults.new ≡ counted (is_err given) faults.old }
    ensures grew { faults.old ≤ faults.new }
{
    let Ok((file, empty)) = given else {
        *faults = faults.saturating_add(1);
        return Err(WorldFault::Failed);
    };
    let handle = keep_file(file, files)?;
    Ok(Created { handle, empty })
}

/// Keeps a file under the next handle.
fn keep_file(file: File, files: &mut Vec<File>) -> Result<u32, WorldFault>
    ensures handle { IfOk result (λ h. h ≡ FIRST_FILE + length files.old.items) }
    ensures kept { OnOk result (files.new.items ≡ files.old.items ++ file ∷ []) }
    ensures same { OnErr result (files.new.items ≡ files.old.items) }
    ensures memory { IfErr result (λ e. e ≡ WorldFault.NoMemory) }
{
    let Ok(handle) = u32::try_from(files.len() + FIRST_FILE) else {
        return Err(WorldFault::NoMemory);
    };
    files.push(file)?;
    Ok(handle)
}
