//! What the leading byte of a packet names at a routing switch.
#![tactic(auto)]

mod intervals;
pub mod laws;
mod look;
mod output;
mod routing;
mod table;

pub use intervals::{Interval, IntervalRoutes};
pub use look::{Look, Route};
pub use output::outputs;
pub use routing::Routing;
pub use sw_topo::limits::{MAX_ADDRESS, MAX_FLOWS, MAX_LINKS, MAX_NODES, MAX_SWITCHES};
pub use sw_topo::{Builder, Chan, PlaceEnd, PortSet, Ports, TopoError, Topology};
pub use table::{RouteError, TableRoutes};
