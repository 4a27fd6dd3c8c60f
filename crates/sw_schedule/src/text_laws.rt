//! What holds of the texts that are written of histories. These functions do nothing: each is the proof of what its clause says.
ghost use Rattle.sw_schedule.specs.TextLaws.{ListedAreShort, SchedulesAreRead};

use crate::laws::lines_are_read;
use sw_load::laws::{cargo_is_read, each_entry_is_read};
use sw_machine::model_laws::declared_networks_are_networks;

/// The cargo of each packet of a load that was read is bytes, at most 4,096 of them.
pub fn listed_are_short()
    ensures { ListedAreShort }
{
    cargo_is_read();
    each_entry_is_read();
}

/// The text that is written of the steps of a history is read as these steps, where it is no longer than a schedule may be.
pub fn schedules_are_read()
    ensures { SchedulesAreRead }
{
    cargo_is_read();
    lines_are_read();
    declared_networks_are_networks();
}
