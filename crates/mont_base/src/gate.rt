// What may stop a caller before a step.
ghost use Rattle.std.specs.Prelude.{◌≡◌, ℕ, Bool, true, false, Ok, OnOk, Some, None, is_err};
ghost use Rattle.mont_base.specs.Faults.{HasCause};

/// A gate didn't let a step be made.
#[derive(Clone, Copy, Debug, PartialEq, Eq)]
pub struct Cut;

/// Is asked before each step. Where it cuts, its caller stops for good, as a thread that dies
/// would.
pub trait Gate {
    /// How often it cut. It never falls, and stands still at the last value of a `u64`.
    ghost cuts: { Self → ℕ };

    /// Whether it never cuts.
    ghost endless: { Self → Bool };

    /// What is known of a gate before it was asked and after, and of whether it cut.
    ghost asked: { Self → Self → Bool → Type 0 };

    /// Lets the next step be made, or cuts.
    fn step(&mut self) -> Result<(), Cut>
        ensures cause { HasCause (cuts self.old) (cuts self.new) result }
        ensures endless { endless self.new ≡ endless self.old }
        ensures passes { endless self.old ≡ true → result ≡ Ok tt }
        ensures asked { asked self.old self.new (is_err result) };
}

/// A gate that never cuts.
#[derive(Clone, Copy, Debug, PartialEq, Eq)]
pub struct Steady;

impl Gate for Steady {
    ghost cuts = { λ _. 0 };

    ghost endless = { λ _. true };

    ghost asked = { λ _ _ cut. cut ≡ false };

    fn step(&mut self) -> Result<(), Cut> {
        Ok(())
    }
}

/// A gate that passes a number of steps and then always cuts, or that never cuts.
#[derive(Clone, Copy, Debug, PartialEq, Eq)]
pub struct Fuel {
    /// How many steps it still passes. None where it never cuts.
    pub left: Option<u64>,
    /// How often it cut.
    pub cuts: u64,
}

impl Fuel {
    /// A gate that passes `n` steps.
    pub fn new(n: u64) -> Fuel
        ensures { result ≡ record { left = Some n; cuts = 0 } }
    {
        Fuel {
            left: Some(n),
            cuts: 0,
        }
    }

    /// A gate that never cuts.
    pub fn endless() -> Fuel
        ensures { result ≡ record { left = None; cuts = 0 } }
    {
        Fuel {
            left: None,
            cuts: 0,
        }
    }
}

impl Gate for Fuel {
    ghost use Rattle.mont_base.specs.Gates.{is_endless, BurnsFuel};

    ghost cuts = { λ f. f.cuts };

    ghost endless = { is_endless };

    ghost asked = { BurnsFuel };

    fn step(&mut self) -> Result<(), Cut> {
        match self.left {
            None => Ok(()),
            Some(0) => {
                self.cuts = self.cuts.saturating_add(1);
                Err(Cut)
            }
            Some(left) => {
                self.left = Some(left - 1);
                Ok(())
            }
        }
    }
}
