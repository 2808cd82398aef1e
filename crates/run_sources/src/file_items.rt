//! A log file that is read in pieces.

ghost use Rattle.std.specs.Prelude.{◌≡◌, [], false, IfOk};
ghost use Rattle.run_sources.specs.Sources.{FileGave, file_halt};

use log_model::Halt;
use one_run::Source;
use ring_layout::Item;
use std::alloc::Global;
use vio::{NoMemory, World};
use vsl_file::{FileFault, FileReader, FileStep};

/// Why a log file stops.
#[derive(Clone, Copy, Debug, PartialEq, Eq)]
pub enum FileStop {
    /// It is no log: this is the first byte at which it begins as no header, or its length where it ends inside one.
    NotALog { at: u64 },
    /// The unit that begins at this byte isn't whole and correct.
    Damaged { at: u64 },
    /// It has more bytes than are read.
    TooLarge,
    /// A read failed.
    ReadFault,
}

/// A log file that is read in pieces.
#[derive(Drop)]
pub struct FileItems {
    pub reader: FileReader,
}

impl FileItems {
    /// The log of this handle, from which nothing was read.
    pub fn new(alloc: Global, handle: u32) -> Result<FileItems, NoMemory>
        ensures handle { IfOk result (λ log. log.reader.handle ≡ handle) }
        ensures fresh { IfOk result (λ log. FileGave log log [] [] false) }
    {
        let reader = FileReader::new(alloc, handle)?;
        Ok(FileItems { reader })
    }
}

/// Why a run has no more items, where the file stops so.
fn halt(fault: FileFault) -> Halt<FileStop>
    ensures { result ≡ file_halt fault }
{
    match fault {
        FileFault::NotALog { at } => Halt::Fault(FileStop::NotALog { at }),
        FileFault::Damaged { at } => Halt::Fault(FileStop::Damaged { at }),
        FileFault::TooLarge => Halt::Fault(FileStop::TooLarge),
        FileFault::ReadFault => Halt::Fault(FileStop::ReadFault),
        FileFault::NoMemory => Halt::NoMemory,
        FileFault::FailedBefore => Halt::NoMemory,
    }
}

impl Source for FileItems {
    ghost use Rattle.std.specs.Prelude.{[], ◌∷◌};
    ghost use Rattle.run_sources.specs.Sources.{FileAsks, FileGave, FileStopped, FileBegins};
    ghost use Rattle.run_sources.specs.Laws.{file_stays, file_stopped_stays};
    ghost use Rattle.vsl_file.specs.ReaderState.{is_at_hand};

    type Fault = FileStop;

    ghost gave = { λ start now calls met all. FileGave start now calls met all };

    ghost stopped = { λ start fault calls met world.
        FileStopped start.reader.handle fault calls met world };

    ghost starved = { λ start now calls met. FileBegins start.reader.handle calls met };

    ghost reads = { λ log. log.reader.handle ∷ [] };

    ghost asks = { λ start calls met. FileAsks start.reader.handle calls met };

    ghost is_ready = { λ log. Unit {0} };

    ghost at_hand = { λ log. is_at_hand log.reader };

    fn is_at_hand(&self) -> bool {
        self.reader.is_at_hand()
    }

    fn next<W: World>(&mut self, world: &mut W) -> Result<Option<Item>, Halt<FileStop>> {
        match self.reader.next(world) {
            Ok(FileStep::Unit(unit)) => Ok(Some(Item::Unit(unit))),
            Ok(FileStep::End) => Ok(None),
            Err(fault) => Err(halt(fault)),
        }
    }

    fn give_back(&mut self, item: Item) {
        if let Item::Unit(unit) = item {
            self.reader.give_back(unit);
        }
    }

    ghost stays = { file_stays };

    ghost stopped_stays = { file_stopped_stays };
}
