//! Which of the next calls of an object over memory are to fail.
ghost use Rattle.std.specs.Prelude.{◌≡◌, ◌↔◌, drop, IsTrue};
ghost use Rattle.trace_io.specs.Memory.{NextFails};

use std::marker::Model;

/// One value for each call: `true` fails it. Past the end no call fails.
#[derive(Drop)]
pub struct Script {
    steps: Vec<bool>,
    turn: usize,
}

impl Model for Script {
    ghost use Rattle.std.specs.Prelude.{◌≤◌, Bool, List, length, drop};

    ghost Value = { List Bool };

    ghost view = { λ s. drop s.turn s.steps.items };

    ghost invariant = { λ s. s.turn ≤ length s.steps.items };
}

impl Script {
    pub fn new(steps: Vec<bool>) -> Self
        ensures { result ≡ steps.items }
    {
        Script { steps, turn: 0 }
    }

    /// Whether the next call is to fail. It takes that call's value off the script.
    pub fn next_fails(&mut self) -> bool
        ensures next { IsTrue result ↔ NextFails self.old }
        ensures step { self.new ≡ drop 1 self.old }
    {
        if self.turn < self.steps.len() {
            let fails = self.steps[self.turn];
            self.turn += 1;
            fails
        } else {
            false
        }
    }
}
