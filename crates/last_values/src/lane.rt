// One family, bisected a step at a time. A lane halves a bracket of its own: it keeps no value, steps or
// flag, and those of `segv::Bracket` are not public.
ghost use Rattle.std.specs.Prelude.{◌≡◌, ◌+◌, ◌<◌, ◌≤◌, Some, None, Ok, Err};
ghost use Rattle.std.specs.Float.Ieee.{lt};
ghost use Rattle.arith.specs.Double.{◌⊖◌, ◌⊘◌, #1e-14};
ghost use Rattle.arith.specs.Choice.{abs};
ghost use Rattle.last_values.specs.Lane.{ending, midpoint_of, halve, started_at, next_lane, stopped_in, value_in, Stepped};

use segv::{Ends, Limits, OutOfSteps};

#[derive(Clone, Copy, Debug)]
pub struct Lane {
    // The bracket of the place that is bisected.
    pub lower: f64,
    pub upper: f64,
    // That place's number less one.
    pub index: usize,
    // What is left of its allowance.
    pub left: u32,
    // Once the family is through: the last place's value, or that a place was out of steps.
    pub outcome: Option<Result<f64, OutOfSteps>>,
    pub ends: Ends,
}

impl Lane {
    pub(crate) fn midpoint(&self) -> f64
        ensures { result ≡ midpoint_of self.now }
    {
        (self.upper + self.lower) / 2.0
    }

    // Whether a place was out of steps.
    pub(crate) fn stopped(&self) -> bool
        ensures { result ≡ stopped_in self.now.outcome }
    {
        match self.outcome {
            Some(Err(_)) => true,
            _ => false,
        }
    }

    // The last place's value, and 0 where there is none. Not an `Option`: it is asked once no lane has
    // stopped, and then each has a value.
    pub(crate) fn value(&self) -> f64
        ensures { result ≡ value_in self.now.outcome }
    {
        match self.outcome {
            Some(Ok(value)) => value,
            _ => 0.0,
        }
    }

    // The stopping test, x being the midpoint.
    fn converged(&self, x: f64) -> bool
        ensures { result ≡ lt (abs ((self.now.upper ⊖ self.now.lower) ⊘ x)) #1e-14 }
    {
        arith::abs((self.upper - self.lower) / x) < 1e-14
    }

    // The midpoint x becomes the lower end where the count at it is below the place's number, and else
    // the upper.
    fn halve(&mut self, x: f64, negative: usize)
        requires { (0 < self.old.left) × (self.old.index < 100) }
        ensures { self.new ≡ halve self.old x negative }
    {
        self.left = self.left - 1;
        if negative < self.index + 1 {
            self.lower = x;
            return;
        }
        self.upper = x;
    }

    // The place at index p starts, from what the ends say of it.
    pub(crate) fn start(&mut self, p: usize, limits: Limits)
        requires { p < limits.places }
        ensures { self.new ≡ started_at p limits.places limits.allowance self.old.ends }
    {
        let start = self.ends.opened(p, limits.places);
        self.lower = start.lower;
        self.upper = start.upper;
        self.index = p;
        self.left = limits.allowance;
        self.outcome = None;
    }

    // The place at the lane's index has the value x: the next one starts, if there is one.
    fn next_place(&mut self, x: f64, limits: Limits)
        requires { self.old.index < limits.places }
        ensures { self.new ≡ next_lane self.old x limits.places limits.allowance }
    {
        let p = self.index;
        self.ends.lowers[p] = self.lower;
        if p + 1 == limits.places {
            self.outcome = Some(Ok(x));
            return;
        }
        self.start(p + 1, limits);
    }

    // The next step, `negative` being the count at the midpoint. A lane that is through stays as it is.
    pub(crate) fn step(&mut self, negative: usize, limits: Limits)
        requires { self.old.outcome ≡ None → self.old.index < limits.places }
        ensures { Stepped limits.places limits.allowance negative self.old self.new }
    {
        if self.outcome.is_some() {
            return;
        }
        if self.left == 0 {
            self.outcome = Some(Err(OutOfSteps));
            return;
        }
        let x = self.midpoint();
        if self.converged(x) {
            self.next_place(x, limits);
            return;
        }
        let count = sturm::Count {
            negative,
            substituted: false,
        };
        self.ends
            .tighten_others(count, self.index + 1, limits.places, x);
        self.halve(x, negative);
    }
}
