//! The texts of a verdict.
ghost use Rattle.std.specs.Prelude.{◌≡◌, ◌≤◌, IfOk, string_bytes};
ghost use Rattle.std.specs.List.{AllByRecursion};
ghost use Rattle.sw_search.specs.Verdicts.{IsVerdict};
ghost use Rattle.sw_app.specs.VerdictAnswers.{SaysCertificate, verdict_text, verdict_words};

use std::alloc::{AllocError, Global};
use sw_cert::laws::one_text;
use sw_config::Network;
use sw_output::{cycle_text, cyclic_words, free_words, misrouted_text, misrouted_words};
use sw_search::Verdict;

/// Numbers of 16 bits have a place in a certificate's text: the proof reads their range here.
fn have_text(numbers: &[u16])
    ensures { AllByRecursion (λ v. v ≤ 65535) numbers.now }
{}

/// The text of a certificate that a verdict has says just that certificate.
pub(crate) fn certificate_is_said(network: &Network, verdict: &Verdict)
    requires { IsVerdict network.now verdict.now }
    ensures { SaysCertificate (verdict_text network.now verdict.now) verdict.now }
{
    // There are at most 2,048 channels and 8,192 flows, in a network that is valid by its type.
    let _topology = network.topology();
    let _channels = network.channels();
    let _flows = network.flows();
    match verdict {
        Verdict::Misrouted(_, _, _) | Verdict::Cyclic(_) => {}
        Verdict::Free(certificate) => {
            have_text(certificate.numbers());
            one_text();
        }
    }
}

/// The text of a verdict: a flow that is not well routed, or a cycle, or a certificate.
pub(crate) fn verdict_text(
    alloc: Global,
    network: &Network,
    verdict: &Verdict,
) -> Result<Vec<u8>, AllocError>
    requires { IsVerdict network.now verdict.now }
    ensures { IfOk result (λ text. text.items ≡ verdict_text network.now verdict.now) }
{
    match verdict {
        Verdict::Misrouted(flow, place, fault) => {
            let text = misrouted_text(alloc, network, *flow, *place, *fault)?;
            Ok(text.into_bytes())
        }
        Verdict::Cyclic(cycle) => {
            // Names the network, which is valid by its type.
            let _topology = network.topology();
            let text = cycle_text(alloc, network, cycle)?;
            Ok(text.into_bytes())
        }
        Verdict::Free(certificate) => certificate.write(alloc),
    }
}

/// A verdict in one line.
pub(crate) fn verdict_words(
    alloc: Global,
    network: &Network,
    verdict: &Verdict,
) -> Result<String, AllocError>
    ensures { IfOk result (λ s. string_bytes s ≡ verdict_words network.now verdict.now) }
{
    match verdict {
        Verdict::Misrouted(flow, place, fault) => {
            misrouted_words(alloc, network, *flow, *place, *fault)
        }
        Verdict::Cyclic(cycle) => cyclic_words(alloc, &cycle.channels),
        Verdict::Free(certificate) => free_words(alloc, certificate.numbers()),
    }
}
