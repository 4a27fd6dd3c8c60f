//! What a replay and a run tell. These functions do nothing: each is the proof of what its clause says.
ghost use Rattle.sw_runs.specs.Laws.{ReplayHasOneAnswer, ReplayHasOneObject, ReplayHasStatusOfText, ReplaysAreAsTold, RunHasStatusesOfTexts, SchedulesAreRetold};

use sw_file::laws::{read_names_are_names, read_networks_are_valid};
use sw_schedule::text_laws::{listed_are_short, schedules_are_read};

/// A replay of the steps of an outcome tells what the outcome does: as much is undelivered, the same packets came out, and the network is
/// locked up where the run was stuck.
pub fn replays_are_as_told()
    ensures { ReplaysAreAsTold }
{}

/// The schedule that is written of a run is read as the run's steps, and each replay of it tells what the run told.
pub fn schedules_are_retold()
    ensures { SchedulesAreRetold }
{
    read_networks_are_valid();
    read_names_are_names();
    listed_are_short();
    schedules_are_read();
}

/// `replay` has one answer for each two files: its text and its status.
pub fn replay_has_one_answer()
    ensures { ReplayHasOneAnswer }
{}

/// As an object it has one for each two files and paths: its status, and but for faults its text.
pub fn replay_has_one_object()
    ensures { ReplayHasOneObject }
{}

/// The status of that object is that of the text answer to the same files.
pub fn replay_has_status_of_text()
    ensures { ReplayHasStatusOfText }
{}

/// The status of each object of `run` is that of a text answer that may be given to the same files.
pub fn run_has_statuses_of_texts()
    ensures { RunHasStatusesOfTexts }
{}
