ghost use Rattle.std.specs.Prelude.{◌≡◌, ◌≤◌};

use std::marker::Model;

/// The numbers of the calls that are to fail, the number of the next call, and the faults so far.
#[derive(Drop)]
pub(crate) struct FaultPlan {
    fails: Vec<u64>,
    next: Option<u64>,
    faults: u64,
}

impl Model for FaultPlan {
    ghost use Rattle.outside_core.specs.Memory.{Plan};

    ghost Value = { Plan };

    ghost view = { λ p. record { fails = p.fails.items; next = p.next; faults = p.faults } };
}

impl FaultPlan {
    ghost use Rattle.outside_core.specs.Memory.{is_due, called, planned};
    ghost use Rattle.outside_core.specs.Outside.{raised};

    pub(crate) fn new(fails: Vec<u64>) -> FaultPlan
        ensures { result ≡ planned fails.items }
    {
        FaultPlan {
            fails,
            next: Some(0),
            faults: 0,
        }
    }

    /// Counts a call, and says whether it is to fail.
    pub(crate) fn call(&mut self) -> bool
        ensures due { result ≡ is_due self.old }
        ensures counted { self.new ≡ called self.old self.old.faults }
    {
        let Some(number) = self.next else {
            return false;
        };
        self.next = number.checked_add(1);
        self.fails.contains(&number)
    }

    /// Counts a fault.
    pub(crate) fn fail(&mut self)
        ensures raised { self.new ≡ record self.old { faults = raised self.old.faults } }
        ensures counted { self.old.faults ≤ self.new.faults }
    {
        self.faults = self.faults.saturating_add(1);
    }
}
