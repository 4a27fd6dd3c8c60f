//! The calls that answer with an object of JSON.
ghost use Rattle.std.specs.Prelude.{◌≡◌};
ghost use Rattle.sw_app.specs.ShownDeadlockFree.{AreShownDeadlockFree};
ghost use Rattle.sw_c.specs.Objects.{IsCheckGiven, IsDecideGiven, IsReportGiven};

use crate::answers::give_object;
use crate::at_hand::AtHand;
use std::alloc::Global;
use sw_app::{check, report};
use sw_args::{TOOLCHAIN, VERSION};
use sw_graph::OneByOne;
use sw_json::ObjectForm;
use sw_json_verdicts::{AuditOptions, Release, VerdictValues, audit_one};

/// This release, and the toolchain that makes it.
const RELEASE: Release<'static> = Release {
    version: VERSION,
    toolchain: TOOLCHAIN,
};

/// An object for the file, which is told in any case; no certificate is kept.
const OPTIONS: AuditOptions<'static> = AuditOptions {
    json: true,
    quiet: false,
    certificates: false,
    release: RELEASE,
};

/// The verdict on the bytes of a network file as an object, with the statuses of `swcheck_decide`.
///
/// The answer's text is what the command `decide --json` writes of a file whose path is `network`.
#[unsafe(no_mangle)]
pub extern "C" fn swcheck_decide_json(
    alloc: Global,
    network: &[u8],
    answer: &mut [u8],
    length: &mut usize,
) -> u8
    ensures { IsDecideGiven network.now answer.old answer.new length.new result }
{
    let bytes = AtHand { bytes: network };
    let mut text = Vec::new(alloc);
    let end = audit_one(&OneByOne, alloc, &bytes, "network", &OPTIONS, &mut text);
    give_object(end.into_ended(), &text, answer, length)
}

/// Whether the certificate is accepted for the network, as an object, with the statuses of `swcheck_check`.
///
/// The answer's text is what the command `check --json` writes of files whose paths are `network` and `certificate`.
#[unsafe(no_mangle)]
pub extern "C" fn swcheck_check_json(
    alloc: Global,
    network: &[u8],
    certificate: &[u8],
    answer: &mut [u8],
    length: &mut usize,
) -> u8
    ensures answer { IsCheckGiven network.now certificate.now answer.old answer.new length.new result }
    ensures deadlock_free { result ≡ 0 → AreShownDeadlockFree network.now certificate.now }
{
    let mut first = network;
    let mut second = certificate;
    let mut text = Vec::new(alloc);
    let form = ObjectForm {
        values: VerdictValues,
        path: "network",
        second: Some("certificate"),
        release: RELEASE,
    };
    let end = check(&OneByOne, alloc, &mut first, &mut second, &form, &mut text);
    give_object(end.into_ended(), &text, answer, length)
}

/// How many parts the network of a file has, and the verdict on it, as an object, with the statuses of `swcheck_report`.
///
/// The answer's text is what the command `report --json` writes of a file whose path is `network`.
#[unsafe(no_mangle)]
pub extern "C" fn swcheck_report_json(
    alloc: Global,
    network: &[u8],
    answer: &mut [u8],
    length: &mut usize,
) -> u8
    ensures { IsReportGiven network.now answer.old answer.new length.new result }
{
    let mut reader = network;
    let mut text = Vec::new(alloc);
    let form = ObjectForm {
        values: VerdictValues,
        path: "network",
        second: None,
        release: RELEASE,
    };
    let ended = report(&OneByOne, alloc, &mut reader, &form, &mut text).into_ended();
    give_object(ended, &text, answer, length)
}
