//! What a report says.
ghost use Rattle.std.specs.Prelude.{◌≡◌, IfOk, string_bytes};
ghost use Rattle.sw_output.specs.ReportTexts.{report_text};

use std::alloc::{AllocError, Global};
use sw_config::Network;

/// How many parts of each kind the network has, how many places and dependencies, and the verdict in these words.
///
/// # Errors
///
/// There is no memory for the text.
pub fn report_text(
    alloc: Global,
    network: &Network,
    places: u64,
    dependencies: u64,
    verdict: &str,
) -> Result<String, AllocError>
    ensures { IfOk result (λ s. string_bytes s ≡ report_text network.now places dependencies verdict.now) }
{
    let nodes = network.nodes();
    let switches = network.switches();
    let links = network.links();
    let channels = network.channels();
    let declared = network.declared_flows();
    let replies = network.flows() - declared;
    format!(in alloc;
        "nodes {nodes}\nswitches {switches}\nlinks {links}\nchannels {channels}\nflows {declared}\nreplies {replies}\nplaces {places}\ndependencies {dependencies}\nverdict {verdict}\n"
    )
}
