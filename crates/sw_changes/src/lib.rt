//! What frees a network that can lock up, and how far the premises of a free one bend: what `mend` and `margin` find, and their engines.
#![tactic(auto)]

mod limiting_texts;
mod limiting_values;
mod margin_finding;
pub mod margin_laws;
mod margin_texts;
pub mod margin_value_laws;
mod margin_values;
mod mend_finding;
pub mod mend_laws;
mod mend_texts;
pub mod mend_value_laws;
mod mend_values;
mod mending;

pub use margin_finding::{MarginFinding, margin};
pub use mend_finding::{ChangeValues, mend};
pub use mending::{Cures, Mending, find_mending};
