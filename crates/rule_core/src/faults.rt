ghost use Rattle.std.specs.Prelude.{◌≡◌};
ghost use Rattle.rule_core.specs.Faults.{first_fault};

use crate::part::RuleFault;

/// The fault whose test is the first to be met.
#[tactic(auto, unfolding(crate::specs::Faults::first_fault))]
pub(crate) fn first_fault(tests: &[(bool, RuleFault)]) -> Option<RuleFault>
    ensures { result ≡ first_fault tests.now }
{
    tests.iter().find(|test| test.0).map(|test| test.1)
}
