//! Gates that hold threads, or delay them.

use std::sync::{Mutex, Wait};
use std::thread;
use varnish_tools::Gate;

/// How many turns a step is held at most: some seconds, in the build that the gate of this repository runs. On a busy
/// machine a step that may go on is held for less than a fifth of it. A test whose step is held to the last turn ends,
/// and has failed.
const MOST_TURNS: u32 = 50_000_000;

/// What a thread is about to do: to put a unit of its listing as the worker of this number, or to make a call of the
/// reader. All are counted from 0.
#[derive(Clone, Copy, PartialEq, Eq)]
pub enum Step {
    Put(u32, u64),
    Read(u64),
}

/// A step that is held until all of the others were entered.
#[derive(Clone, Copy)]
pub struct Hold {
    pub step: Step,
    pub until: &'static [Step],
}

impl Hold {
    /// Whether this step is held, or others are held until it is entered.
    fn names(&self, step: Step) -> bool {
        self.step == step || self.until.contains(&step)
    }
}

/// What was entered: how many calls of the reader, and how many puts of each worker, and whether a step was held to the
/// last turn.
#[derive(Clone, Copy)]
struct Entered {
    reads: u64,
    puts: [u64; 4],
    failed: bool,
}

impl Entered {
    fn add(&mut self, step: Step) {
        match step {
            Step::Read(call) => self.reads = call.saturating_add(1),
            Step::Put(worker, unit) => {
                if let Some(puts) = self.puts.get_mut(worker as usize) {
                    *puts = unit.saturating_add(1);
                }
            }
        }
    }

    fn has(&self, step: Step) -> bool {
        match step {
            Step::Read(call) => self.reads > call,
            Step::Put(worker, unit) => match self.puts.get(worker as usize) {
                Some(puts) => *puts > unit,
                None => false,
            },
        }
    }

    fn has_all(&self, steps: &[Step]) -> bool {
        steps.iter().all(|step| self.has(*step))
    }
}

/// Holds steps until others were entered.
#[derive(Drop)]
pub struct HoldingGate {
    holds: &'static [Hold],
    entered: Mutex<Entered>,
}

impl HoldingGate {
    pub fn new(holds: &'static [Hold]) -> HoldingGate {
        HoldingGate {
            holds,
            entered: Mutex::new(Entered {
                reads: 0,
                puts: [0; 4],
                failed: false,
            }),
        }
    }

    /// Whether a step was entered that is held, or that others wait for.
    pub fn was_entered<R: Wait>(&self, rt: &R, step: Step) -> bool {
        self.entered.lock(rt).has(step)
    }

    /// Whether a step was held to the last turn.
    pub fn has_failed<R: Wait>(&self, rt: &R) -> bool {
        self.entered.lock(rt).failed
    }

    /// Waits until all of these steps were entered, or one was held to its last turn. Each turn takes the lock and
    /// gives it back.
    fn wait_for<R: Wait>(&self, rt: &R, steps: &[Step]) {
        for _ in 0..MOST_TURNS {
            let entered = *self.entered.lock(rt);
            if entered.failed || entered.has_all(steps) {
                return;
            }
        }
        self.entered.lock(rt).failed = true;
    }

    /// Enters a step. Where it isn't held and none waits for it, it takes no lock, so that threads that wait don't hold
    /// it up.
    fn enter<R: Wait>(&self, rt: &R, step: Step) {
        if self.holds.iter().any(|hold| hold.names(step)) {
            self.entered.lock(rt).add(step);
        }
        for hold in self.holds {
            if hold.step == step {
                self.wait_for(rt, hold.until);
            }
        }
    }
}

impl Gate for HoldingGate {
    fn before_put<R: Wait>(&self, rt: &R, worker: u32, unit: u64) {
        self.enter(rt, Step::Put(worker, unit));
    }

    fn before_read<R: Wait>(&self, rt: &R, call: u64) {
        self.enter(rt, Step::Read(call));
    }
}

/// Lets other threads go first at one step of eight or so. At which, a number chooses.
#[derive(Clone, Copy)]
pub struct UnevenGate {
    pub seed: u64,
}

impl UnevenGate {
    fn delay(&self, who: u64, what: u64) {
        let drawn = self
            .seed
            .wrapping_add(who.wrapping_mul(7))
            .wrapping_add(what.wrapping_mul(3));
        if drawn % 8 == 0 {
            thread::yield_now();
        }
    }
}

impl Gate for UnevenGate {
    fn before_put<R: Wait>(&self, _rt: &R, worker: u32, unit: u64) {
        self.delay(u64::from(worker), unit);
    }

    fn before_read<R: Wait>(&self, _rt: &R, call: u64) {
        self.delay(99, call);
    }
}
