//! Opening what is read, and creating what is written, by name: a file, or a standard stream.

ghost use Rattle.std.specs.Prelude.{◌≡◌, ◌≢◌, true, IfOk};
ghost use Rattle.vio.specs.World.{Writing};
ghost use Rattle.vio.specs.Calls.{Called};
ghost use Rattle.vio.specs.Streams.{CreatesStream, OpensStream};

use crate::fault::WorldFault;
use crate::world::{Created, ERRORS, INPUT, OUTPUT, World};

/// The name of standard input and of standard output on a command line.
pub const STREAM: &str = "-";

/// Opens the file of this name for reading, or gives standard input.
pub fn open_stream<W: World>(world: &mut W, name: &str) -> Result<u32, WorldFault>
    ensures { Called (OpensStream name.now result) (W.seen world.old) (W.seen world.new) }
{
    if name == STREAM {
        return Ok(INPUT);
    }
    world.open(name)
}

/// Creates the file of this name, or gives standard output, which counts as empty.
pub fn create_stream<W: World>(
    world: &mut W,
    name: &str,
    append: bool,
) -> Result<Created, WorldFault>
    ensures made { Called (CreatesStream append name.now result) (W.seen world.old) (W.seen world.new) }
    ensures named { IfOk result (λ made. (W.seen world.new).names Writing made.handle name.now ≡ true) }
    ensures apart { IfOk result (λ made. made.handle ≢ ERRORS) }
{
    if name == STREAM {
        return Ok(Created {
            handle: OUTPUT,
            empty: true,
        });
    }
    world.create(name, append)
}
