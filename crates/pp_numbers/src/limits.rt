ghost use Rattle.std.specs.Prelude.{◌≡◌, ◌↔◌, IsSome, IfSome};
ghost use Rattle.pp_numbers.specs.Limits.{RunLimits, AreLimits};

use std::marker::Model;

/// How many steps a worker makes at most, and how often in a row it tries one at which it is held.
#[derive(Clone, Copy)]
pub struct Limits {
    steps: u32,
    patience: u32,
}

impl Model for Limits {
    ghost Value = { RunLimits };

    ghost view = { λ l. record { steps = l.steps; patience = l.patience } };

    ghost invariant = { λ l. AreLimits (record { steps = l.steps; patience = l.patience }) };

    ghost inverse = { λ l. record { steps = l.steps; patience = l.patience } };
}

impl Limits {
    /// 1 to 100,000 steps and a patience of 1 or more (decimal), or nothing for other numbers.
    pub fn new(steps: u32, patience: u32) -> Option<Self>
        ensures exists { IsSome result ↔ AreLimits (record { steps = steps; patience = patience }) }
        ensures value { IfSome result (λ l. l ≡ record { steps = steps; patience = patience }) }
    {
        if steps == 0 || steps > 100_000 || patience == 0 {
            return None;
        }
        Some(Limits { steps, patience })
    }

    /// How many steps a worker makes at most.
    pub fn steps(self) -> u32
        ensures value { result ≡ self.steps }
        ensures sound { AreLimits self }
    {
        self.steps
    }

    /// How often in a row a worker is held at one step before it gives up.
    pub fn patience(self) -> u32
        ensures value { result ≡ self.patience }
        ensures sound { AreLimits self }
    {
        self.patience
    }
}
