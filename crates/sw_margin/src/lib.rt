//! How far the premises of a free network bend: nodes that take nothing while they want to send, flows that are answered, limits on
//! unanswered commands, links that are not there.
#![tactic(auto)]

mod bend;
mod chosen;
mod flows;
pub mod laws;
mod limits;
mod losing;
mod nodes;
mod rising;
mod rows;
mod search;
mod telling;
mod trial;
mod way;

pub use bend::{Bend, FlowLimit, Margins};
pub use flows::answers;
pub use limits::flow_limits;
pub use losing::losses;
pub use nodes::stalls;
pub use telling::margins;
pub use trial::has_no_cycle_with;
