//! What holds of cycles of dependencies that stay in a changed network. These functions do nothing: each is the proof of what its clause says.
ghost use Rattle.sw_mend.specs.KeptCycles.{KeptCyclesAreShown, KeptCyclesRuleOutFree, SparedCyclesRuleOutFrees};

/// A shown cycle whose causes are left is a cycle of the network that is left, so that this is not free; and a change that leaves them does
/// not free the network.
pub fn kept_cycles_rule_out_free()
    ensures shown { KeptCyclesAreShown }
    ensures never { KeptCyclesRuleOutFree }
    ensures changes { SparedCyclesRuleOutFrees }
{}
