//! Laws of the texts of schedules: the functions do nothing, and each is the proof of its clause.
ghost use Rattle.sw_schedule.specs.Laws.{LinesAreRead, SkippedLinesSayNothing};
ghost use Rattle.sw_schedule.specs.Spelling.{WrittenIsRead};

/// Lines are read as the steps that they say.
pub fn lines_are_read()
    ensures { LinesAreRead }
{}

/// Empty lines and comments change no steps.
pub fn skipped_lines_say_nothing()
    ensures { SkippedLinesSayNothing }
{}

/// Steps that are written line by line are read as these steps.
pub fn written_is_read()
    ensures { WrittenIsRead }
{}
