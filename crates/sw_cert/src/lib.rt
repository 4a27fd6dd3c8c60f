//! Certificates: their text, and what they have to say of a network.
//!
//! Whether a certificate is accepted for a network, and what an accepted one shows of it.
#![tactic(auto)]

pub mod acceptance_laws;
mod certificate;
mod checker;
mod closed;
mod counts;
mod draft;
pub mod laws;
mod lines;
mod listed;
mod make;
mod parallel;
mod parts;
mod passed;
mod reading;
mod refusal;
mod rising;
mod targets;
mod write;
mod write_workers;

pub use certificate::{Certificate, CertificateFault};
pub use checker::check;
pub use parallel::CheckWorkers;
pub use parts::ReadWorkers;
pub use passed::Passed;
pub use refusal::Refusal;
pub use rising::number_of;
pub use sw_flow::Place;
pub use sw_text::laws::one_spelling;
pub use sw_topo::limits::{MAX_ADDRESS, MAX_NUMBER};
pub use write_workers::WriteWorkers;
