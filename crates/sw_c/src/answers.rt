//! How an answer is given to a caller.
ghost use Rattle.std.specs.Prelude.{◌≡◌, length};
ghost use Rattle.sw_c.specs.Given.{IsEnded, IsObjectEnded, filled};

use sw_text::Ended;
use sw_text::statuses::NO_ROOM;

/// Fills the room with the beginning of the text, as much as there is room for.
fn fill(text: &[u8], room: &mut [u8])
    ensures { room.new ≡ filled text.now room.old }
{
    let count = text.len().min(room.len());
    room[..count].copy_from_slice(&text[..count]);
}

/// Gives a text with its length, and then its status.
fn give(text: &[u8], status: u8, room: &mut [u8], count: &mut usize) -> u8
    ensures room { room.new ≡ filled text.now room.old }
    ensures count { count.new ≡ length text.now }
    ensures status { result ≡ status }
{
    fill(text, room);
    *count = text.len();
    status
}

/// Gives what an engine wrote, by how it ended. Where it could not be written, since there was no memory for the text, that is told.
pub(crate) fn give_ended(ended: Ended, text: &[u8], room: &mut [u8], length: &mut usize) -> u8
    ensures { IsEnded ended text.now room.old room.new length.new result }
{
    match ended {
        Ended::Status(status) => give(text, status, room, length),
        Ended::ReadFailed | Ended::WriteFailed => give(b"fault memory\n", NO_ROOM, room, length),
    }
}

/// The same of an engine that answers with an object of JSON.
pub(crate) fn give_object(ended: Ended, text: &[u8], room: &mut [u8], length: &mut usize) -> u8
    ensures { IsObjectEnded ended text.now room.old room.new length.new result }
{
    match ended {
        Ended::Status(status) => give(text, status, room, length),
        Ended::ReadFailed | Ended::WriteFailed => give(
            b"{\"result\":{\"kind\":\"memory\"},\"status\":5}\n",
            NO_ROOM,
            room,
            length,
        ),
    }
}
