//! Why a network can lock up, and drawings of networks: what `explain` and `draw` find, and their engines.
#![tactic(auto)]

mod dot_channels;
mod dot_marks;
mod dot_parts;
mod dot_text;
mod draw_finding;
mod draw_options;
mod explain_finding;
mod explain_texts;
pub mod explain_value_laws;
mod explain_values;
mod owed_texts;
mod route_texts;
mod step_texts;
mod tangle_texts;
mod words;

pub use draw_finding::{DrawFinding, Drawing, draw};
pub use draw_options::DrawOptions;
pub use explain_finding::{ExplainFinding, ExplainValues, explain};
pub use route_texts::fault_words;
pub use step_texts::{add_names, names_text};
pub use words::ending;
