//! What holds of single changes and of pairs of them. These functions do nothing: each is the proof of what its clause says.
ghost use Rattle.sw_mend.specs.Laws.{AllKeepValid, ChangesKeepValid, MendsAreDetermined, MendsAreThoseThatFree, MendsKeepValid, MendsNeverLockUp, NoneChangesNothing, OneAloneIsAChange, PairMendsNeverLockUp, PairsAreDetermined, PairsAreThoseThatFree, UnitMendsAreDetermined, UnitMendsAreThoseThatFree, UnitMendsKeepValid, UnitMendsNeverLockUp};
ghost use Rattle.sw_mend.specs.LimitingLaws.{LimitingsNeverLockUp};

/// A change is told exactly where it is one of the single changes of parts and frees the network.
pub fn mends_are_those_that_free()
    ensures { MendsAreThoseThatFree }
{}

/// The changes that are told of a network are determined.
pub fn mends_are_determined()
    ensures { MendsAreDetermined }
{}

/// A change is told of units exactly where it takes away the flows of one and frees the network.
pub fn unit_mends_are_those_that_free()
    ensures { UnitMendsAreThoseThatFree }
{}

/// The changes that are told of units are determined.
pub fn unit_mends_are_determined()
    ensures { UnitMendsAreDetermined }
{}

/// Whatever is taken away, the network that is left is a valid one.
pub fn changes_keep_valid()
    ensures { ChangesKeepValid }
{}

/// Each change that is told leaves a valid network.
pub fn mends_keep_valid()
    ensures { MendsKeepValid }
{}

/// Each change that is told of units leaves a valid network.
pub fn unit_mends_keep_valid()
    ensures { UnitMendsKeepValid }
{}

/// Several changes that are one change leave what it leaves.
pub fn one_alone_is_a_change()
    ensures { OneAloneIsAChange }
{}

/// Where none is made, the network is as it was.
pub fn none_changes_nothing()
    ensures { NoneChangesNothing }
{}

/// Whatever several changes take away, the network that is left is a valid one.
pub fn all_keep_valid()
    ensures { AllKeepValid }
{}

/// A pair is told exactly where both are among what can be taken away, the first before the second, neither frees the network alone, and they
/// free it together.
pub fn pairs_are_those_that_free()
    ensures { PairsAreThoseThatFree }
{}

/// The pairs that are told of a network are determined.
pub fn pairs_are_determined()
    ensures { PairsAreDetermined }
{}

/// No network that is told of ever locks up, over every run that keeps its limits on unanswered commands, and over every run where it has
/// none: what a change of parts leaves, a change of units, a pair, and a limit with slots.
pub fn mends_never_lock_up()
    ensures parts { MendsNeverLockUp }
    ensures units { UnitMendsNeverLockUp }
    ensures pairs { PairMendsNeverLockUp }
    ensures limits { LimitingsNeverLockUp }
{}
