//! How channels, flows, faults, verdicts, reports and the packets of a run are written.
#![tactic(auto)]

mod all_nodes;
mod channel_texts;
mod counted_lines;
mod entry_texts;
mod flow_texts;
pub mod laws;
mod linked;
mod packet_lines;
mod report_texts;
mod tallies;
mod verdict_texts;

pub use all_nodes::{all_node_lines, all_packet_lines};
pub use channel_texts::{channel_text, end_text};
pub use counted_lines::sent_text;
pub use entry_texts::entry_words;
pub use flow_texts::{flow_name, place_words, route_fault_text};
pub use linked::linked_ports;
pub use packet_lines::{end_text as packet_end_text, undelivered_line};
pub use report_texts::report_text;
pub use tallies::{Tally, end_rank, tallies as packet_tallies};
pub use verdict_texts::{
    cycle_text, cyclic_words, free_words, height, misrouted_text, misrouted_words, node_name,
    switch_name,
};
