//! What a run took, and how it is answered.

ghost use Rattle.std.specs.Prelude.{◌≡◌, List};
ghost use Rattle.ring_layout.specs.declared.item.Item.{Item};
ghost use Rattle.one_run.specs.Counts.{IsMet};
ghost use Rattle.job_runs.specs.Sources.{RecordsCount};

use job_steps::ToolFault;
use log_ring::ClosedRing;
use one_run::Met;

/// What was taken of the input. With the input it gives the run.
#[derive(Drop)]
pub enum RunRecord {
    /// Nothing was taken: a refusal came before the run, or the job has no log; or the command records nothing, as `convert`.
    Nothing,
    /// Units were taken, from the first on, of a log file or of feeds in a stated order. varnishstat takes none, and both
    /// numbers are 0.
    Counted {
        /// How many units were taken; after a failed write, how many units' text was begun.
        units: u64,
        /// How many items the history has: a run of units, and each overrun, and each run that follows one; over a file one run.
        items: u64,
    },
    /// Workers put feeds on threads into this ring, which is closed. It holds no byte: contracts see its log, what was taken
    /// of it, and how often a worker waited for another.
    Closed(ClosedRing),
}

/// What a run took, and why it stopped early, if it did.
#[derive(Drop)]
pub struct Ran {
    pub fault: Option<ToolFault>,
    pub run: RunRecord,
}

impl Ran {
    /// What a run took that met so much.
    pub(crate) fn counted(fault: Option<ToolFault>, met: Met) -> Ran
        ensures fault { result.fault ≡ fault }
        ensures run { (list : List Item) → IsMet met list → RecordsCount result.run list }
    {
        let run = RunRecord::Counted {
            units: met.units,
            items: met.items,
        };
        Ran { fault, run }
    }
}
