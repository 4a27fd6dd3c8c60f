//! Why a certificate is refused.

use sw_flow::{Place, RouteFault};
use sw_topo::Chan;
use thiserror::Error;

/// Why a certificate is not accepted for a network. Flows are told by their numbers, reply flows counted on from the declared ones.
#[derive(Clone, Copy, Debug, PartialEq, Eq, Error)]
pub enum Refusal {
    /// It is for another count of channels or of flows, or it lists a place that the network can't have.
    #[error("the certificate is for another network")]
    WrongCount,
    /// The flow's start is not listed for it.
    #[error("a flow's start is not listed")]
    NoStart(u16),
    /// A place that is listed for the flow has a fault.
    #[error("a listed place is faulty")]
    Faulty(u16, Place, RouteFault),
    /// Some place that follows this one is not listed for the flow.
    #[error("what follows a listed place is not listed")]
    NotClosed(u16, Place),
    /// The second channel depends on the first, and its number is not above that of the first.
    #[error("the numbers do not rise along a dependency")]
    NotRising(Chan, Chan),
}
