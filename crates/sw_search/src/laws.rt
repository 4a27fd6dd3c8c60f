//! What verdicts show. These functions do nothing: each is the proof of what its clause says.
ghost use Rattle.sw_search.specs.Laws.{CyclicIsShown, FreeIsAccepted, FreeIsCertified, FreeNeverLocksUp, OneVerdictHolds, RisingIsWhereNoCycleIs, VerdictsAreDetermined, VerdictsTell};

use sw_cert::acceptance_laws::not_refused_is_accepted;
use sw_cycle::laws::shown_cycles_rule_out_rising;

/// Any two verdicts on a network say the same.
pub fn verdicts_are_determined()
    ensures { VerdictsAreDetermined }
{}

/// The certificate of a free network is accepted for it, and not refused.
pub fn free_is_accepted()
    ensures { FreeIsAccepted }
{
    not_refused_is_accepted();
}

/// The cycle of a cyclic network is shown by its causes, so that no numbers rise along the dependencies.
pub fn cyclic_is_shown()
    ensures { CyclicIsShown }
{
    shown_cycles_rule_out_rising();
}

/// Of each valid network exactly one of three holds: some flow is not well routed; or each is, and
/// the dependencies have a cycle; or each is, and they have none. A verdict tells which.
pub fn one_verdict_holds()
    ensures one { OneVerdictHolds }
    ensures told { VerdictsTell }
{}

/// There are numbers that rise along the dependencies of a valid network exactly where these have no
/// cycle.
pub fn rising_is_where_no_cycle_is()
    ensures { RisingIsWhereNoCycleIs }
{}

/// A valid network in which each flow is well routed and no channels can wait for one another in a
/// circle has a certificate that is accepted for it; so it never locks up, over every run that keeps
/// the limits on unanswered commands, and over every run where there are none.
pub fn free_networks_never_lock_up()
    ensures certified { FreeIsCertified }
    ensures never_locks_up { FreeNeverLocksUp }
{}
