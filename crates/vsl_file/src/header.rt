//! The header of a file.

ghost use Rattle.std.specs.Prelude.{◌≡◌, ◌≤◌, ◌++◌, drop, length, IfOk, IfSome, IfNone, IsErrOf};
ghost use Rattle.vio.specs.World.{ReadSome};
ghost use Rattle.vsl_file.specs.File.{file_header_of, DiffersFrom};
ghost use Rattle.vsl_file.specs.inside.ReaderSteps.{Begins, CutHeader, TookStart};

use crate::fault::StepFault;
use crate::filling::fill_to;
use bytes::BytesMut;
use vio::World;
use vsl_record::Version;

/// The bytes with which a log file begins that is written: the header of version 2.
pub(crate) const HEADER: [u8; 8] = *b"VSLOG-2\n";

/// The header of version 1.
const OLD_HEADER: [u8; 8] = *b"VSLOG-1\n";

/// The header of a version.
fn header_of(version: Version) -> [u8; 8]
    ensures { result ≡ file_header_of version }
{
    match version {
        Version::One => OLD_HEADER,
        Version::Two => HEADER,
    }
}

/// What begins a file.
#[derive(Clone, Copy)]
pub(crate) enum Header {
    /// The header of a version.
    Found(Version),
    /// No header: this byte is the first that shows it.
    Missing(usize),
}

/// The first byte that isn't that of a version's header, or the length where the header goes on; none where the header
/// begins the bytes.
fn first_difference(version: Version, bytes: &[u8]) -> Option<usize>
    ensures some { IfSome result (λ at. DiffersFrom version at bytes.now) }
    ensures place { IfSome result (λ at. at ≤ length bytes.now) }
    ensures none { IfNone result (bytes.now ≡ file_header_of version ++ drop 8 bytes.now) }
{
    let header = header_of(version);
    for at in 0..header.len() {
        if at >= bytes.len() {
            return Some(at);
        }
        if bytes[at] != header[at] {
            return Some(at);
        }
    }
    None
}

/// The version of the header that begins the bytes, or the first byte at which they go on as none.
fn look_at_header(bytes: &[u8]) -> Header
    ensures { Begins result bytes.now }
{
    let Some(new) = first_difference(Version::Two, bytes) else {
        return Header::Found(Version::Two);
    };
    let Some(old) = first_difference(Version::One, bytes) else {
        return Header::Found(Version::One);
    };
    if new < old {
        return Header::Missing(old);
    }
    Header::Missing(new)
}

/// Takes the header, or answers the first byte that differs from both.
pub(crate) fn take_header<W: World>(
    buffer: &mut BytesMut,
    most: usize,
    handle: u32,
    world: &mut W,
) -> Result<Header, StepFault>
    requires most { 8 ≤ most }
    requires within { length buffer.old.items ≤ most }
    ensures took { IfOk result
        (λ header. TookStart handle most header buffer.old.items buffer.new.items (W.seen world.old)
        (W.seen world.new)) }
    ensures within { length buffer.new.items ≤ most }
    ensures reads { ReadSome handle (W.seen world.old) (W.seen world.new) }

    ensures failed { IsErrOf result StepFault.Failed →
        CutHeader handle buffer.old.items (W.seen world.old) (W.seen world.new) }
{
    fill_to(buffer, HEADER.len(), most, handle, world)?;
    match look_at_header(buffer.as_slice()) {
        Header::Found(version) => {
            buffer.advance(HEADER.len());
            Ok(Header::Found(version))
        }
        Header::Missing(at) => Ok(Header::Missing(at)),
    }
}
