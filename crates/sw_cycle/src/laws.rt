//! What a shown cycle shows. These functions do nothing: each is the proof of what its clause says.
ghost use Rattle.sw_cycle.specs.Laws.{ChosenCausesShowCycles, ShownCyclesAreRounds, CausesShowDependencies, ShownCyclesAreCycles, ShownCyclesRuleOutRising};

use sw_machine::laws::rising_has_no_cycle;

/// In a valid network a cause for two channels shows a dependency of the first on the second.
pub fn causes_show_dependencies()
    ensures { CausesShowDependencies }
{}

/// The channels of a shown cycle are a cycle of dependencies.
pub fn shown_cycles_are_cycles()
    ensures { ShownCyclesAreCycles }
{}

/// Where a cycle is shown, no numbers rise along the dependencies.
pub fn shown_cycles_rule_out_rising()
    ensures { ShownCyclesRuleOutRising }
{
    rising_has_no_cycle();
}

/// Channels, if there are any, are a shown cycle with the causes that are chosen for them.
pub fn chosen_causes_show_cycles()
    ensures { ChosenCausesShowCycles }
{}

/// Each channel of a shown cycle may wait for the next one, and the last for the first.
pub fn shown_cycles_are_rounds()
    ensures { ShownCyclesAreRounds }
{}
