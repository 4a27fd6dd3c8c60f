//! Laws of components, each over any relation. The functions do nothing: a call brings the law of its contract.
ghost use Rattle.sw_graph.specs.ComponentLaws.{ComponentsAreWhereCyclesAre, ComponentsCarryOver, CycleMembersAreInOneComponent};

use crate::laws::Relation;

/// There are no components exactly where the relation has no cycle.
pub fn components_are_where_cycles_are<D: Relation>()
    ensures { ComponentsAreWhereCyclesAre D.dep }
{}

/// A number lies on a cycle exactly where it is a member of a component, and no two components have it.
pub fn cycle_members_are_in_one_component<D: Relation>()
    ensures { CycleMembersAreInOneComponent D.dep }
{}

/// The components of a relation are those of each other one with the same steps.
pub fn components_carry_over<D: Relation, E: Relation>()
    ensures { ComponentsCarryOver D.dep E.dep }
{}
