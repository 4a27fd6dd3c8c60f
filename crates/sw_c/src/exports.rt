//! The calls.
ghost use Rattle.std.specs.Prelude.{◌≡◌};
ghost use Rattle.sw_app.specs.CheckAnswers.{IsCheckAnswer};
ghost use Rattle.sw_app.specs.ShownDeadlockFree.{AreShownDeadlockFree};
ghost use Rattle.sw_app.specs.VerdictAnswers.{IsDecideAnswer, IsReportAnswer};
ghost use Rattle.sw_text.specs.Ends.{IfShort, limited};
ghost use Rattle.sw_c.specs.Given.{IsGiven, IsGivenSuch};

use crate::answers::give_ended;
use std::alloc::Global;
use sw_app::{check, decide, report};
use sw_engine::Lines;
use sw_graph::OneByOne;

/// The verdict on the bytes of a network file: 0 with a certificate, and then the network never locks up, over every run; 1 with a cycle
/// of dependencies, or a flow that is not well routed; 3 with a fault of the file; 5 where there was no memory.
///
/// The answer's text is what the command `decide` writes. `answer` gets as much of it as there is room for, and `length` its whole length.
#[unsafe(no_mangle)]
pub extern "C" fn swcheck_decide(
    alloc: Global,
    network: &[u8],
    answer: &mut [u8],
    length: &mut usize,
) -> u8
    ensures answer { IsGiven (IfShort network.now (IsDecideAnswer network.now)) answer.old answer.new length.new result }
    ensures deadlock_free { result ≡ 0 → IsGivenSuch (AreShownDeadlockFree network.now) answer.old answer.new length.new }
{
    let mut reader = network;
    let mut text = Vec::new(alloc);
    let ended = decide(&OneByOne, alloc, &mut reader, &mut text).into_ended();
    give_ended(ended, &text, answer, length)
}

/// Whether the certificate is accepted for the network, of the bytes of the two files: 0 where it is, and then the network never locks
/// up, over every run; 1 where it is refused; 3 with a fault of a file; 5 where there was no memory.
///
/// The answer's text is what the command `check` writes. `answer` gets as much of it as there is room for, and `length` its whole length.
#[unsafe(no_mangle)]
pub extern "C" fn swcheck_check(
    alloc: Global,
    network: &[u8],
    certificate: &[u8],
    answer: &mut [u8],
    length: &mut usize,
) -> u8
    ensures answer { IsGiven (IsCheckAnswer (limited network.now) (limited certificate.now)) answer.old answer.new length.new result }
    ensures deadlock_free { result ≡ 0 → AreShownDeadlockFree network.now certificate.now }
{
    let mut first = network;
    let mut second = certificate;
    let mut text = Vec::new(alloc);
    let end = check(&OneByOne, alloc, &mut first, &mut second, &Lines, &mut text);
    give_ended(end.into_ended(), &text, answer, length)
}

/// How many parts the network of a file has, and the verdict on it in one line, of the bytes of the file: 0 whatever the verdict; 3 with
/// a fault of the file; 5 where there was no memory.
///
/// The answer's text is what the command `report` writes. `answer` gets as much of it as there is room for, and `length` its whole length.
#[unsafe(no_mangle)]
pub extern "C" fn swcheck_report(
    alloc: Global,
    network: &[u8],
    answer: &mut [u8],
    length: &mut usize,
) -> u8
    ensures { IsGiven (IfShort network.now (IsReportAnswer network.now)) answer.old answer.new length.new result }
{
    let mut reader = network;
    let mut text = Vec::new(alloc);
    let ended = report(&OneByOne, alloc, &mut reader, &Lines, &mut text).into_ended();
    give_ended(ended, &text, answer, length)
}
