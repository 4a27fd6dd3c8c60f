//! What holds of replays. The functions do nothing: each is the proof of what its clause says.
ghost use Rattle.sw_schedule.specs.Replays.{ReplaysAreDetermined, ReplaysKeepLimits};

/// A network and a list of steps determine what their replay tells.
pub fn replays_are_determined()
    ensures { ReplaysAreDetermined }
{}

/// The steps that a replay makes keep the limits on unanswered commands.
pub fn replays_keep_limits()
    ensures { ReplaysKeepLimits }
{}
