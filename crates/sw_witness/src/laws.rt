//! What holds of replies that can't happen. These functions do nothing: each is the proof of what its clause says.
ghost use Rattle.sw_witness.specs.Laws.{FreeWithoutNeverLocksUp, NoneIsAnswered};
ghost use Rattle.sw_witness.specs.OtherFlows.{OtherFlowsKeepFreedom, OtherFlowsKeepRuns};

use sw_mend::laws::changes_keep_valid;

/// No packet that a flow of the test declares is answered, whatever its cargo.
pub fn none_is_answered()
    ensures { NoneIsAnswered }
{}

/// A network of the machine whose flows declare no packet that other flows do not declare has no run that it does not have with these,
/// and never locks up if it never does with these.
pub fn other_flows_keep_freedom()
    ensures runs { OtherFlowsKeepRuns }
    ensures freedom { OtherFlowsKeepFreedom }
{}

/// A network that is free without the replies that can't happen never locks up.
pub fn free_without_never_locks_up()
    ensures { FreeWithoutNeverLocksUp }
{
    changes_keep_valid();
}
