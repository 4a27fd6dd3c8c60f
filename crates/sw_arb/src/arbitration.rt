//! The kinds of arbitration that a network file names.

/// How a switch chooses among the inputs that ask for one output (ECSS-E-ST-50-12C, network layer:
/// arbitration).
#[derive(Clone, Copy, PartialEq, Eq)]
pub enum Arbitration {
    /// The lowest port.
    Fixed,
    /// The first asking port after the last that was picked, in a circle.
    RoundRobin,
    /// The asking port whose last pick is longest ago.
    LeastRecent,
}
