//! RMAP commands, and a target that answers them.
use std::alloc::Global;
use sw_char::End;
use sw_rmap::{Command, Target, TargetConfig, crc, reply_to, write_command};

const CONFIG: TargetConfig = TargetConfig {
    logical: 0xFE,
    key: 0,
    start: 0xA000_0000,
    size: 64,
    slots: 1,
};

const DATA: &[u8] = &[
    0x01, 0x23, 0x45, 0x67, 0x89, 0xAB, 0xCD, 0xEF, 0x10, 0x11, 0x12, 0x13, 0x14, 0x15, 0x16, 0x17,
];

/// The example of a write in the standard (ECSS-E-ST-50-52C, annex A), with that key, that code of
/// its header, and those bytes after its data.
macro_rules! write_packet {
    ($key:expr, $code:expr; $($after:expr),*) => {
        &[
            0xFE, 0x01, 0x6C, $key, 0x67, 0x00, 0x00, 0x00,
            0xA0, 0x00, 0x00, 0x00, 0x00, 0x00, 0x10, $code,
            0x01, 0x23, 0x45, 0x67, 0x89, 0xAB, 0xCD, 0xEF,
            0x10, 0x11, 0x12, 0x13, 0x14, 0x15, 0x16, 0x17,
            $($after),*
        ]
    };
}

/// The example of a read in the standard, with that code of its header.
macro_rules! read_packet {
    ($code:expr) => {
        &[
            0xFE, 0x01, 0x4C, 0x00, 0x67, 0x00, 0x01, 0x00,
            0xA0, 0x00, 0x00, 0x00, 0x00, 0x00, 0x10, $code,
        ]
    };
}

const WRITE: &[u8] = write_packet!(0x00, 0x9F; 0x56);

const READ: &[u8] = read_packet!(0xC9);

const CODES: &[(&[u8], u8)] = &[
    (&[], 0),
    (&[0x01], 0x91),
    (&[0x02], 0xE3),
    (&[0x80], 0xE0),
    (&[0xFF], 0xCF),
    (&[0x01, 0x91], 0),
    (&[1, 2, 3, 4, 5, 6, 7, 8], 0xB0),
    (b"SpaceWire is beautiful!!", 0x84),
];

/// Bytes have these codes.
pub(crate) fn have_codes() -> bool {
    for (bytes, code) in CODES {
        if crc(bytes) != *code {
            return false;
        }
    }
    true
}

/// A packet, how it ends, what the target answers if it does, and its memory then, all of it.
pub(crate) struct Answered {
    packet: &'static [u8],
    end: End,
    reply: Option<&'static [u8]>,
    memory: &'static [u8],
}

/// The data, and then nothing.
const WRITTEN: &[u8] = &[
    0x01, 0x23, 0x45, 0x67, 0x89, 0xAB, 0xCD, 0xEF, 0x10, 0x11, 0x12, 0x13, 0x14, 0x15, 0x16, 0x17,
    0, 0, 0, 0, 0, 0, 0, 0, 0, 0, 0, 0, 0, 0, 0, 0, 0, 0, 0, 0, 0, 0, 0, 0, 0, 0, 0, 0, 0, 0, 0, 0,
    0, 0, 0, 0, 0, 0, 0, 0, 0, 0, 0, 0, 0, 0, 0, 0,
];

pub(crate) const ANSWERED: &[Answered] = &[
    Answered {
        packet: WRITE,
        end: End::Eop,
        reply: Some(&[0x67, 0x01, 0x2C, 0x00, 0xFE, 0x00, 0x00, 0xED]),
        memory: WRITTEN,
    },
    // The header of the reply to the read, the data, and their code.
    Answered {
        packet: READ,
        end: End::Eop,
        reply: Some(&[
            0x67, 0x01, 0x0C, 0x00, 0xFE, 0x00, 0x01, 0x00, 0x00, 0x00, 0x10, 0x6D, 0x01, 0x23,
            0x45, 0x67, 0x89, 0xAB, 0xCD, 0xEF, 0x10, 0x11, 0x12, 0x13, 0x14, 0x15, 0x16, 0x17,
            0x56,
        ]),
        memory: WRITTEN,
    },
];

const EMPTY: &[u8] = &[0; 64];

pub(crate) const REFUSED: &[Answered] = &[
    // The header's code is wrong.
    Answered {
        packet: write_packet!(0x00, 0x9E; 0x56),
        end: End::Eop,
        reply: None,
        memory: EMPTY,
    },
    // Another key.
    Answered {
        packet: write_packet!(0x01, 0xCD; 0x56),
        end: End::Eop,
        reply: Some(&[0x67, 0x01, 0x2C, 0x03, 0xFE, 0x00, 0x00, 0xB8]),
        memory: EMPTY,
    },
    // The data's code is wrong.
    Answered {
        packet: write_packet!(0x00, 0x9F; 0x57),
        end: End::Eop,
        reply: Some(&[0x67, 0x01, 0x2C, 0x04, 0xFE, 0x00, 0x00, 0x9E]),
        memory: EMPTY,
    },
    // A byte too few, and one too many.
    Answered {
        packet: write_packet!(0x00, 0x9F;),
        end: End::Eop,
        reply: Some(&[0x67, 0x01, 0x2C, 0x05, 0xFE, 0x00, 0x00, 0x12]),
        memory: EMPTY,
    },
    Answered {
        packet: write_packet!(0x00, 0x9F; 0x56, 0x00),
        end: End::Eop,
        reply: Some(&[0x67, 0x01, 0x2C, 0x06, 0xFE, 0x00, 0x00, 0x47]),
        memory: EMPTY,
    },
    // The packet was cut off.
    Answered {
        packet: WRITE,
        end: End::Eep,
        reply: Some(&[0x67, 0x01, 0x2C, 0x07, 0xFE, 0x00, 0x00, 0xCB]),
        memory: EMPTY,
    },
];

/// A new target answers each packet so.
pub(crate) fn answer(alloc: Global, cases: &[Answered]) -> bool {
    let Ok(mut target) = Target::new(alloc, CONFIG) else {
        return false;
    };
    let mut is_so = true;
    for case in cases {
        is_so = is_so
            && match target.answer(alloc, case.packet, case.end) {
                Ok(reply) => {
                    reply.as_deref() == case.reply && target.memory().starts_with(case.memory)
                }
                Err(_) => false,
            };
    }
    is_so && target.memory().len() == EMPTY.len()
}

/// A command is read and written.
pub(crate) fn are_bytes(alloc: Global) -> bool {
    let Some(command) = Command::read(WRITE) else {
        return false;
    };
    if (command.length(), command.instruction()) != (16, 0x6C) {
        return false;
    }
    let bytes = write_command(alloc, &command, DATA).ok();
    bytes.as_deref() == Some(WRITE)
}

/// A packet, and the way back to where its reply goes.
const WAYS: &[(&[u8], Option<&[u8]>)] = &[
    (WRITE, Some(&[0x67])),
    (READ, Some(&[0x67])),
    (read_packet!(0xC8), None),
];

/// Replies go back so.
pub(crate) fn go_back(alloc: Global) -> bool {
    for (packet, wanted) in WAYS {
        let Ok(way) = reply_to(alloc, packet) else {
            return false;
        };
        if way.as_deref() != *wanted {
            return false;
        }
    }
    true
}
