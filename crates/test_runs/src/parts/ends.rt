//! Worked values of receiving ends.
ghost use Rattle.sw_link.specs.Ends.{IsCapacity};

use std::alloc::Global;
use sw_char::NChar;
use sw_link::RxEnd;

const EIGHT: &[NChar] = &[
    NChar::Data(0),
    NChar::Data(1),
    NChar::Data(2),
    NChar::Data(3),
    NChar::Data(4),
    NChar::Data(5),
    NChar::Data(6),
    NChar::Data(7),
];

/// An end asks so often, these N-Chars arrive and are taken, until when it asks for no more, and then it asks again or does not.
fn takes(end: &mut RxEnd, times: u8, characters: &[NChar], asks_again: bool) -> bool {
    for _ in 0..times {
        if !end.can_issue() {
            return false;
        }
        end.issue();
    }
    for character in characters {
        if end.can_issue() || end.outstanding() == 0 {
            return false;
        }
        end.arrive(*character);
    }
    for character in characters {
        if end.can_issue()
            || end.front() != Some(*character)
            || end.len() == 0
            || end.take() != *character
        {
            return false;
        }
    }
    end.can_issue() == asks_again
}

/// So does a new end for so many.
fn asks(alloc: Global, capacity: usize, times: u8, characters: &[NChar], asks_again: bool) -> bool
    requires { IsCapacity capacity }
{
    match RxEnd::new(alloc, capacity) {
        Ok(mut end) => takes(&mut end, times, characters, asks_again),
        Err(_) => false,
    }
}

/// Eight must arrive and be taken, one free place more is enough, and seven FCTs are sent in a row.
pub(crate) fn ask(alloc: Global) -> bool {
    asks(alloc, 8, 1, EIGHT, true)
        && asks(alloc, 15, 1, &[NChar::Eop], true)
        && asks(alloc, 4096, 7, &[], false)
}
