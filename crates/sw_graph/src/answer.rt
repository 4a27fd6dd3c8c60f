//! What is answered of a relation.

/// The order of a relation: levels exactly where it has no cycle, and else one of its cycles.
#[derive(Drop)]
pub enum Order {
    /// The level of each member, by the members' numbers: the greatest count of steps in a chain
    /// that ends at the member. Levels rise along each step.
    Levels(Vec<u16>),
    /// The members of a cycle, in the direction of the steps, beginning with the least of them.
    Cycle(Vec<u16>),
}
