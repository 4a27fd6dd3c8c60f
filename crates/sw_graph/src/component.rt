//! A component of a relation.

/// A component of a relation: numbers each of which leads to each other and to itself by one or more steps, and no others do.
#[derive(Drop)]
pub struct Component {
    /// The numbers, in rising order.
    pub members: Vec<u16>,
    /// The shortest cycle to show: of the cycles with the fewest members those through the least number, and from there each time on to
    /// the least number from which the rest leads back.
    pub cycle: Vec<u16>,
}
