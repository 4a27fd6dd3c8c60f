//! The network file: a TOML text that declares a network's nodes, switches, links and flows; and files of version 1 made files of version 2.
#![tactic(auto)]

mod document;
mod fault;
mod flows;
mod keys;
pub mod laws;
mod links;
mod migration;
mod nodes;
mod order;
mod rows;
mod switches;
mod tree;

pub use document::{declared_network, declared_version, read_network};
pub use fault::MigrateFault;
pub use migration::migrate;
pub use sw_config::Network;
pub use sw_text::FileFault;
pub use sw_topo::limits::MEMORY_END;
