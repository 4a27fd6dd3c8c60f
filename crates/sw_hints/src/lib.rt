//! Hints on how a call ended, for a person: on a flow that goes wrong or is not there, a
//! certificate, a load or a schedule with a fault, a text that is too long or of another kind, a
//! command that a flow can't bring, a step that is refused, a network that is locked up. They
//! decide nothing.
#![tactic(auto)]

mod certificate_hints;
mod certificate_lines;
mod digits;
mod flow_hints;
mod later_faults;
mod load_hints;
mod lock_up;
mod misrouted;
mod refused_steps;
mod rmap_faults;
mod schedule_lines;
mod step_words;
mod teller;
mod text_kinds;
mod text_lines;
mod whole_texts;

pub use certificate_hints::refused_certificate_hint;
pub use certificate_lines::certificate_line_hint;
pub use flow_hints::{cyclic_hint, misrouted_hint, unknown_flow_hint};
pub use later_faults::further_faults;
pub use load_hints::load_hint;
pub use lock_up::lock_up_hint;
pub use refused_steps::refused_step_hint;
pub use rmap_faults::rmap_fault_hint;
pub use schedule_lines::schedule_line_hint;
pub use text_kinds::note_other_kind;
pub use whole_texts::{long_text_hint, unmigrated_hint};
