//! Several texts with their sinks.

ghost use Rattle.std.specs.Prelude.{◌≡◌, Bool, true, [], ◌∷◌, IfOk, replicate};
ghost use Rattle.std.specs.List.{list_any};
ghost use Rattle.fan_output.specs.Fan.{IsFan};

use crate::sink::Sink;
use crate::texts::Texts;
use std::alloc::{AllocError, Global};

/// How a run ends with several texts.
#[derive(Clone, Copy, Debug, PartialEq, Eq)]
pub enum FanEnd {
    /// With all that the source has.
    Whole,
    /// No text was wanted any more.
    Idle,
    /// The message of an overrun, or of how many units it cost, couldn't be written.
    Unreported,
}

/// How a run ends with several texts, and which of them was the first that wasn't written.
#[derive(Clone, Copy, Debug, PartialEq, Eq)]
pub struct FanEnding {
    pub how: FanEnd,
    /// The place of the sink to which a write failed first.
    pub unwritten: Option<usize>,
}

/// Whether a sink is written.
pub(crate) fn has_live(live: &Vec<bool>) -> bool
    ensures { result ≡ list_any (λ (b : Bool). b) live.now.items }
{
    live.iter().any(|b| *b)
}

/// So many sinks are written.
fn all_live(alloc: Global, count: usize) -> Result<Vec<bool>, AllocError>
    ensures { IfOk result (λ live. live.items ≡ replicate count true) }
{
    let mut live = Vec::new(alloc);
    for _ in 0..count {
        live.push(true)?;
    }
    Ok(live)
}

/// Several texts, each with its sink, and the messages of overruns and of what they cost.
#[derive(Drop)]
pub struct FanOutput<T> {
    pub alloc: Global,
    pub texts: T,
    pub sinks: Vec<Sink>,
    /// Which of them are written.
    pub live: Vec<bool>,
    /// The place of the sink to which a write failed first.
    pub unwritten: Option<usize>,
}

impl<T: Texts> FanOutput<T> {
    /// Texts to these sinks, of which none was written.
    pub fn new(alloc: Global, texts: T, sinks: Vec<Sink>) -> Result<FanOutput<T>, AllocError>
        ensures fan { IfOk result (λ o. IsFan o) }
        ensures texts { IfOk result (λ o. o.texts ≡ texts) }
        ensures sinks { IfOk result (λ o. o.sinks ≡ sinks) }
    {
        let live = all_live(alloc, sinks.len())?;
        Ok(FanOutput {
            alloc,
            texts,
            sinks,
            live,
            unwritten: None,
        })
    }

    /// A text to one sink, which wasn't written.
    pub fn of_one(alloc: Global, texts: T, sink: Sink) -> Result<FanOutput<T>, AllocError>
        ensures fan { IfOk result (λ o. IsFan o) }
        ensures texts { IfOk result (λ o. o.texts ≡ texts) }
        ensures sinks { IfOk result (λ o. o.sinks.items ≡ sink ∷ []) }
    {
        let mut sinks = Vec::new(alloc);
        sinks.push(sink)?;
        FanOutput::new(alloc, texts, sinks)
    }
}
