//! Laws of orders, each over any relation. The functions do nothing: a call brings the law of its
//! contract.
ghost use Rattle.std.specs.Prelude.{ℕ};
ghost use Rattle.sw_graph.specs.Laws.{AnswersCarryOver, LevelsAreWhereNoCycleIs, LevelsRise, ShownIsCycle};

/// A relation between numbers, for laws over any relation.
pub trait Relation {
    /// A step leads from the first number to the second.
    ghost dep: { ℕ → ℕ → Type 0 };
}

/// What is answered of a relation is answered of each other one with the same steps.
pub fn answers_carry_over<D: Relation, E: Relation>()
    ensures { AnswersCarryOver D.dep E.dep }
{}

/// The cycle that is shown is a cycle: one or more members, each with a step to the next, and the
/// last to the first.
pub fn shown_is_cycle<D: Relation>()
    ensures { ShownIsCycle D.dep }
{}

/// Levels rise along each step.
pub fn levels_rise<D: Relation>()
    ensures { LevelsRise D.dep }
{}

/// There are levels exactly where there is no cycle.
pub fn levels_are_where_no_cycle_is<D: Relation>()
    ensures { LevelsAreWhereNoCycleIs D.dep }
{}
