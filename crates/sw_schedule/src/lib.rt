//! A schedule, which lists steps of a network: its text is read, and written of steps that were made, and the network core makes its steps
//! one after another, up to the first that is refused.
#![tactic(auto)]

mod cargo;
pub mod laws;
mod limited_step;
mod line;
mod locked_up;
mod made_steps;
mod names;
pub mod replay_laws;
mod replay_report;
mod replayed;
mod replaying;
mod schedule;
mod schedule_entry;
pub mod text_laws;
mod writing;
mod written_line;

pub use limited_step::make_step;
pub use locked_up::{cells, replay_with_parts};
pub use names::MAX_COUNT;
pub use replayed::{ReplayEnd, Replayed, StepRefusal};
pub use replaying::replay;
pub use schedule::{MAX_STEPS, Schedule, ScheduleFault, read_steps};
pub use schedule_entry::ScheduleEntry;
pub use sw_load::MAX_CARGO;
pub use sw_machine::{Move, Step};
pub use sw_net::{
    ASKED_BY_FCT, CellId, Input, Net, NetFault, NodePart, Part, PortPart, SwitchRoutes, Unanswered,
    declared_net,
};
pub use sw_topo::limits::MAX_NUMBER;
pub use writing::{entry_text, write_steps};
