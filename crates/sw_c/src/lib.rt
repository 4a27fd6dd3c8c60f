//! The calls for programs in C: over bytes, each in its caller's own thread, that keep nothing between one another.
#![tactic(auto)]

mod answers;
mod at_hand;
mod exports;
mod json_exports;
