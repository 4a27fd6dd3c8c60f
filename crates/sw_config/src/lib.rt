//! A network as its file declares it: nodes, switches, links and flows, valid by its type.
#![tactic(auto)]

mod builder;
mod entries;
mod flow;
mod flow_table;
pub mod laws;
mod limit_table;
mod limited;
mod names;
mod network;

pub use builder::NetworkBuilder;
pub use flow::{Flow, Reply};
pub use network::Network;
pub use sw_route::laws::outputs_are_the_named_channels;
pub use sw_route::{Chan, Look, MAX_ADDRESS, PlaceEnd, PortSet, Ports, Topology};
