//! The text of what is told of a network.
ghost use Rattle.std.specs.Prelude.{◌≡◌, IfOk, string_bytes};
ghost use Rattle.sw_search.specs.Explanations.{IsExplanation};
ghost use Rattle.sw_explain.specs.ExplainTexts.{explain_status, explain_text};

use crate::route_texts::misrouted_text;
use crate::tangle_texts::tangles_text;
use std::alloc::{AllocError, Global};
use sw_config::Network;
use sw_search::Explanation;
use sw_text::statuses::{BAD, GOOD};

/// What is told of a network that never locks up.
const FREE: &str =
    "free\nno channels can wait for one another in a circle; swcheck decide writes the certificate\nbuffers and arbiters do not change this; where the file limits unanswered commands, these limits have to be kept, and others, or other slots, may change it\ntaken for granted: nodes take what comes, sources end their packets, links lose and change nothing, only declared packets are sent\n";

/// The text of what is told of a network; with all flows of a step, or six and how many more there are.
pub(crate) fn explain_text(
    alloc: Global,
    network: &Network,
    all: bool,
    explanation: &Explanation,
) -> Result<String, AllocError>
    requires { IsExplanation network.now explanation.now }
    ensures { IfOk result (λ s. string_bytes s ≡ explain_text network.now all explanation.now) }
{
    match explanation {
        Explanation::Misrouted {
            flow,
            place,
            fault,
            way,
        } => misrouted_text(alloc, network, *flow, *place, *fault, way),
        Explanation::Cyclic(tangles) => tangles_text(alloc, network, all, tangles),
        Explanation::Free => String::from_str(alloc, FREE),
    }
}

/// The status of what is told: 0 where the network never locks up.
pub fn explain_status(explanation: &Explanation) -> u8
    ensures { result ≡ explain_status explanation.now }
{
    match explanation {
        Explanation::Misrouted { .. } | Explanation::Cyclic(_) => BAD,
        Explanation::Free => GOOD,
    }
}
