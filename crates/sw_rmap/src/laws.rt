//! What holds of commands, replies and targets, whatever the code.
ghost use Rattle.sw_rmap.specs.Laws.{CodeOfWholeIsZero, WrittenIsRead, ReadIsWritten, WayBackIsInHeader, AnswersByTheWayBack, RepliesGetNoReply, OnlySuccessStores, MemoryKeepsItsLength, WriteThenRead};

/// The code of a text followed by its code is 0.
pub fn code_of_whole_is_zero()
    ensures { CodeOfWholeIsZero }
{}

/// A command that was written is read again.
pub fn written_is_read()
    ensures { WrittenIsRead }
{}

/// Bytes that are read as a command begin as it is written.
pub fn read_is_written()
    ensures { ReadIsWritten }
{}

/// Whether there is a reply, and where it goes, is in the header.
pub fn way_back_is_in_header()
    ensures { WayBackIsInHeader }
{}

/// A packet is answered exactly where it says a way back, and by that way.
pub fn answers_by_the_way_back()
    ensures { AnswersByTheWayBack }
{}

/// A reply that has come to its end gets no reply.
pub fn replies_get_no_reply()
    ensures { RepliesGetNoReply }
{}

/// Only a write whose status is success changes the memory.
pub fn only_success_stores()
    ensures { OnlySuccessStores }
{}

/// A target's memory keeps its length.
pub fn memory_keeps_its_length()
    ensures { MemoryKeepsItsLength }
{}

/// What a write stored is what a read of the same place finds.
pub fn write_then_read()
    ensures { WriteThenRead }
{}
