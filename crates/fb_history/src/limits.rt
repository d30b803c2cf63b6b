//! How many units and recorded calls there may be.
ghost use Rattle.std.specs.{Prelude.{◌≡◌}, Option.{SomeIff}};
ghost use Rattle.fb_history.specs.Limits.{AreLimits};

use std::marker::Model;

/// The most units of a workbench, 1 to 16,384, and the most calls that it records since its start, 1 to 10,000,000.
#[derive(Clone, Copy)]
pub struct Limits {
    units: u64,
    history: u64,
}

impl Model for Limits {
    ghost use Rattle.fb_history.specs.Limits.{Bounds, AreLimits};

    ghost Value = { Bounds };

    ghost view = { λ it. record { units = it.units; history = it.history } };

    ghost inverse = { λ it. record { units = it.units; history = it.history } };

    ghost invariant = { λ it. AreLimits it.units it.history };
}

impl Limits {
    /// None if a number is out of its range.
    pub fn new(units: u64, history: u64) -> Option<Limits>
        ensures { SomeIff result (AreLimits units history)
            (record { units = units; history = history }) }
    {
        if 1 <= units && units <= 16_384 && 1 <= history && history <= 10_000_000 {
            Some(Limits { units, history })
        } else {
            None
        }
    }

    /// The most units.
    pub fn units(&self) -> u64
        ensures units { result ≡ self.now.units }
        ensures limits { AreLimits self.now.units self.now.history }
    {
        self.units
    }

    /// The most recorded calls.
    pub fn history(&self) -> u64
        ensures history { result ≡ self.now.history }
        ensures limits { AreLimits self.now.units self.now.history }
    {
        self.history
    }
}
