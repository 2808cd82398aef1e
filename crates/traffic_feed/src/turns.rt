//! Draws that choose whose turn it is.

ghost use Rattle.std.specs.Prelude.{◌≡◌, ◌<◌, ◌%◌};
ghost use Rattle.traffic_feed.specs.Turns.{first_draw, next_draw};

use std::marker::Model;

/// One more than the greatest draw. This project's choice.
const DRAW_END: u32 = 65537;

/// A sequence of draws. Contracts see the last one.
#[derive(Clone, Copy, Debug)]
pub struct Turns {
    x: u32,
}

impl Model for Turns {
    ghost use Rattle.std.specs.Prelude.{ℕ, ◌<◌};
    ghost use Rattle.traffic_feed.specs.Turns.{draw_end};

    ghost Value = { ℕ };

    ghost view = { λ t. t.x };

    ghost invariant = { λ t. t.x < draw_end };

    ghost inverse = { λ n. record { x = n } };
}

impl Turns {
    /// The draws of a seed. Those of 7 are 599, 44999, 32612, 21105, 10061, 33742, 40318, 9222.
    ///
    /// Source: this project's choice.
    pub fn new(seed: u32) -> Turns
        ensures { result ≡ first_draw seed }
    {
        Turns { x: seed % DRAW_END }
    }

    /// Draws a number below 65,537.
    pub(crate) fn draw(&mut self) -> u32
        ensures drawn { self.new ≡ next_draw self.old }
        ensures draw { result ≡ self.new }
    {
        self.x = (75 * self.x + 74) % DRAW_END;
        self.x
    }

    /// Draws, and answers whose turn it is of so many, counted from 0.
    pub fn pick(&mut self, active: u32) -> u32
        requires { 0 < active }
        ensures drawn { self.new ≡ next_draw self.old }
        ensures pick { result ≡ next_draw self.old % active }
    {
        self.draw() % active
    }
}
