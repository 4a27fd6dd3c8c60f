//! Laws of the machine, each over every network, state and run that it names. The functions do
//! nothing: a call brings the law of its contract.

ghost use Rattle.sw_machine.specs.Certificate.{IsAccepted, number};
ghost use Rattle.sw_machine.specs.Credit.{CreditIsKept};
ghost use Rattle.sw_machine.specs.Memory.{MemoryIsOfPackets};
ghost use Rattle.sw_machine.specs.Network.{IsNetwork};
ghost use Rattle.sw_machine.specs.Sample.{certificate, misrouted, of_capacity, sample};
ghost use Rattle.sw_machine.specs.Witnesses.{IsAnswered, IsDiscarded, IsDropped, SendsFcts};
ghost use Rattle.std.specs.Prelude.{◌<◌, ◌≤◌, ◌∷◌, [], None, Option, Some, nat_eq, true, ℕ};
ghost use Rattle.sw_machine.specs.Begun.{AllComesOut, AllIsAnswered, ComesOutWhole, EachRunIsCounted, IsBounded, IsBoundedByLoad, NoMoreRepliesThanCommands, RepliesAreAsked};
ghost use Rattle.sw_machine.specs.DeadlockFreedom.{AcceptedIsFree, AlwaysGoesOn, AlwaysGoesOnWithinLimits, EndsEmpty, EndsEmptyWithinLimits, IsNeverLockedUp, IsNeverLockedUpWithinLimits, NothingIsDropped, OfAccepted, OfAcceptedWithoutLimits, QuietIsEmpty, QuietIsEmptyWithinLimits};
ghost use Rattle.sw_machine.specs.LimitSamples.{LocksUp, detour, detour_certificate, detour_steps, duel, duel_certificate, duel_steps};
ghost use Rattle.sw_machine.specs.Limits.{KeptAfterEachStep, NothingIsUnanswered, OnlyBeginningsRaise, WithoutLimitsAllAreKept};
ghost use Rattle.sw_machine.specs.OneSlot.{OneSlotIsOneReply};
ghost use Rattle.sw_machine.specs.Owed.{EmitSettles, NodesOweReplies, OnlyAskedOwe};
ghost use Rattle.sw_machine.specs.Parts.{LinkEndsAreAtCells, OutputsAreHeldOnce, StepsAreLocal, StepsChangeOneCell};
ghost use Rattle.sw_machine.specs.Places.{IsCycle, RisingHasNoCycle};
ghost use Rattle.sw_machine.specs.Stalling.{AlwaysGoesOnUnder, Guard, IsNeverLockedUpUnder, NoneStallingIsTheMachine, OfAcceptedStalling, QuietIsEmptyUnder, RisesWhereStalling, RunsUnderAreRuns, StallingGuard};
ghost use Rattle.sw_machine.specs.StallingSamples.{LocksUpUnder, standoff_steps};
ghost use Rattle.sw_machine.specs.Steps.{StepsAreDetermined};
ghost use Rattle.sw_machine.specs.Tried.{StepsAreTried};

/// A state and a step determine the state after, and there is a function that tells it, exactly
/// where the step is possible.
pub fn steps_are_determined()
    ensures determined { StepsAreDetermined }
    ensures tried { StepsAreTried }
{}

/// In each reached state of each network the credit equation of each channel holds, at most 56
/// characters are outstanding, and there is room for them.
pub fn credit_is_kept()
    ensures { CreditIsKept }
{}

/// In each reached state of each network a node owes at most as many replies as it has slots: those
/// that wait, and the one that it sends; the last character of a reply lowers what is owed by one.
pub fn nodes_owe_replies()
    ensures owed { NodesOweReplies }
    ensures settled { EmitSettles }
{}

/// In each reached state of each network a node's memory is what the packets that came out there made
/// of it, one after another, whatever their end markers.
pub fn memory_is_of_packets()
    ensures { MemoryIsOfPackets }
{}

/// In each reached state of each network an output is held by one input at most, of its own switch.
pub fn outputs_are_held_once()
    ensures { OutputsAreHeldOnce }
{}

/// A step changes the part of one cell, and what lies between the cells; whether it is possible
/// hangs on these alone. It belongs to a link end of that cell.
pub fn steps_are_done_at_cells()
    ensures link_end { LinkEndsAreAtCells }
    ensures changes { StepsChangeOneCell }
    ensures local { StepsAreLocal }
{}

/// Where each node may owe one reply, the machine is the one with one pending reply a node and a
/// flag: from each reached state each step leads in both to the same states.
pub fn one_slot_is_one_reply()
    ensures { OneSlotIsOneReply }
{}

/// Where numbers rise along the dependencies, these have no cycle.
pub fn rising_has_no_cycle()
    ensures { RisingHasNoCycle }
{}

/// No state that an accepted network reaches by a run that keeps the limits on unanswered commands is locked
/// up: one that holds an undelivered character has a possible step other than a beginning, and in a quiet one
/// nothing is undelivered. Where no node has a limit that is so of each reached state.
pub fn accepted_is_never_locked_up()
    ensures goes_on_within_limits { OfAccepted AlwaysGoesOnWithinLimits }
    ensures never_within_limits { OfAccepted IsNeverLockedUpWithinLimits }
    ensures quiet_within_limits { OfAccepted QuietIsEmptyWithinLimits }
    ensures goes_on { OfAcceptedWithoutLimits AlwaysGoesOn }
    ensures never { OfAcceptedWithoutLimits IsNeverLockedUp }
    ensures quiet { OfAcceptedWithoutLimits QuietIsEmpty }
{}

/// Where no node has a limit on unanswered commands each run keeps the limits. What is unanswered at a node is
/// within its limit after each step of a run that keeps them, and only the beginning of a packet raises it. In an
/// accepted network nothing is unanswered where nothing is undelivered.
pub fn limits_are_kept()
    ensures without_limits { WithoutLimitsAllAreKept }
    ensures throughout { KeptAfterEachStep }
    ensures raised { OnlyBeginningsRaise }
    ensures answered { OfAccepted NothingIsUnanswered }
{}

/// A guard on the steps, for laws over any guard.
pub trait Guarded {
    /// In this state this step may be done, if it is possible.
    ghost guard: { Guard };
}

/// Each run under a guard is a run.
pub fn guarded_runs_are_runs<G: Guarded>()
    ensures { RunsUnderAreRuns G.guard }
{}

/// Where no node stalls, the runs under the guard of the nodes that stall are the runs.
pub fn none_stalling_is_the_machine()
    ensures { NoneStallingIsTheMachine }
{}

/// Where the numbers of an accepted certificate rise at the nodes that stall too, from the channel into such a
/// node to the channel out of it, no state reached under their guard by a run that keeps the limits is locked up
/// under it: one that holds an undelivered character has a possible step other than a beginning that meets the
/// guard, and in a quiet one nothing is undelivered.
pub fn stalling_is_never_locked_up()
    ensures goes_on { OfAcceptedStalling AlwaysGoesOnUnder }
    ensures never { OfAcceptedStalling IsNeverLockedUpUnder }
    ensures quiet { OfAcceptedStalling QuietIsEmptyUnder }
{}

/// Over each run of an accepted network the packets that come out at a node are packets begun to it,
/// unchanged but for deleted address bytes and no oftener than begun; where nothing is undelivered
/// they came out exactly as often. Each run has begun packets. No step drops or spills a character.
pub fn accepted_comes_out_whole()
    ensures dropped { OfAccepted NothingIsDropped }
    ensures counted { OfAccepted EachRunIsCounted }
    ensures whole { OfAccepted ComesOutWhole }
    ensures all { OfAccepted AllComesOut }
{}

/// Over each run of an accepted network a node begins at most one reply for each answered command that
/// came out there, so for each that was begun, and exactly one where nothing is undelivered; only such a
/// node owes replies.
pub fn accepted_answers_once()
    ensures asked { OfAccepted RepliesAreAsked }
    ensures begun { OfAccepted NoMoreRepliesThanCommands }
    ensures all { OfAccepted AllIsAnswered }
    ensures owed { OfAccepted OnlyAskedOwe }
{}

/// A run of an accepted network makes at most C x (14 + 5N) steps other than beginnings, where C is
/// the number of channels and N how many characters the packets that it begins have; and at most
/// B + C x (14 + 5M) steps, where B is how many packets its beginnings begin and M how many
/// characters these have with their longest replies. Behind a run that keeps the limits, steps other than
/// beginnings that can't go on end with nothing undelivered.
pub fn accepted_is_bounded()
    ensures bounded { OfAccepted IsBounded }
    ensures by_load { OfAccepted IsBoundedByLoad }
    ensures ends { OfAccepted EndsEmptyWithinLimits }
    ensures without_limits { OfAcceptedWithoutLimits EndsEmpty }
{}

/// All that an accepted certificate shows of its network: over the runs that keep the limits on unanswered
/// commands, and over every run where no node has a limit.
pub fn accepted_is_deadlock_free()
    ensures { AcceptedIsFree }
{}

/// There are networks, whatever the size of their buffers, and accepted ones, with a group and a
/// target that answers.
pub fn some_are_accepted()
    ensures network { (capacity : ℕ) → 8 ≤ capacity → IsNetwork (of_capacity capacity) }
    ensures misrouted { IsNetwork misrouted }
    ensures accepted { IsAccepted sample certificate }
{}

/// A network whose dependencies are a cycle without limits is accepted where fewer commands may be unanswered at
/// each target than it may owe replies, and locks up where as many may be and replies end there too; one where only
/// commands end at the target is accepted where as many may be, and locks up with one more.
pub fn limits_are_sharp()
    ensures duels { (slots : ℕ) (limit : Option ℕ) → 0 < slots → IsNetwork (duel slots limit) }
    ensures duel_cyclic { (slots : ℕ) → IsCycle (duel slots None) (0 ∷ 1 ∷ []) }
    ensures duel_accepted { (slots limit : ℕ) → limit < slots → IsAccepted (duel slots (Some limit)) duel_certificate }
    ensures duel_sharp { LocksUp (duel 2 (Some 2)) duel_steps }
    ensures detours { (limit : Option ℕ) → IsNetwork (detour limit) }
    ensures detour_cyclic { IsCycle (detour None) (4 ∷ 3 ∷ 2 ∷ []) }
    ensures detour_accepted { IsAccepted (detour (Some 1)) detour_certificate }
    ensures detour_sharp { LocksUp (detour (Some 2)) detour_steps }
{}

/// There is an accepted network whose numbers rise at its target. Another, whose numbers don't rise at its two
/// nodes, locks up where both stall, by a run that keeps the limits.
pub fn stalling_is_sharp()
    ensures rises { RisesWhereStalling sample (nat_eq 1) (number certificate) }
    ensures network { IsNetwork (duel 2 (Some 1)) }
    ensures accepted { IsAccepted (duel 2 (Some 1)) duel_certificate }
    ensures locked { LocksUpUnder (StallingGuard (λ n. true)) (duel 2 (Some 1)) standoff_steps }
{}

/// On an empty channel as many FCTs are sent as there is room for, and seven at most; a packet that
/// is lost is discarded to its end, and a marker alone is; two commands are taken, change the memory
/// and are answered.
pub fn steps_are_sharp()
    ensures seven { SendsFcts 4096 7 }
    ensures one { SendsFcts 8 1 }
    ensures discarded { IsDiscarded }
    ensures dropped { IsDropped }
    ensures answered { IsAnswered }
{}
