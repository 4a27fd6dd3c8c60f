//! Verdicts as values.
ghost use Rattle.std.specs.Prelude.{◌≡◌, IfOk};
ghost use Rattle.serde_json.specs.View.{view};
ghost use Rattle.sw_cert.specs.Grammar.{spelling};
ghost use Rattle.sw_search.specs.Verdicts.{IsVerdict};
ghost use Rattle.sw_json.specs.VerdictValues.{certificate_bytes, free_value, misrouted_value, verdict_value};

use crate::codes::route_fault_code;
use crate::cycles::cyclic_value;
use crate::digests::digest_text;
use crate::objects::{Member, object_of};
use serde_json::Value;
use std::alloc::{AllocError, Global};
use sw_cert::Certificate;
use sw_config::Network;
use sw_flow::{Place, RouteFault};
use sw_output::{flow_name, height, misrouted_words};
use sw_search::Verdict;

fn free_value(
    alloc: Global,
    network: &Network,
    certificate: &Certificate,
    text: &[u8],
) -> Result<Value, AllocError>
    requires { text.now ≡ spelling certificate.now.numbers certificate.now.places }
    ensures { IfOk result (λ v. view v ≡ free_value network.now certificate.now) }
{
    let height = height(certificate.numbers());
    let declared = network.declared_flows();
    let replies = network.flows() - declared;
    let channels = network.channels();
    let links = network.links();
    let nodes = network.nodes();
    let switches = network.switches();
    let digest = digest_text(alloc, text)?;
    let members = vec![in alloc;
        ("certificate_sha256", Member::Value(Value::String(digest))),
        ("channels", Member::Number(u64::from(channels))),
        ("flows", Member::Number(u64::from(declared))),
        ("height", Member::Number(u64::from(height))),
        ("kind", Member::Text("free")),
        ("links", Member::Number(u64::from(links))),
        ("nodes", Member::Number(u64::from(nodes))),
        ("replies", Member::Number(u64::from(replies))),
        ("switches", Member::Number(u64::from(switches))),
    ]?;
    object_of(alloc, members)
}

fn misrouted_value(
    alloc: Global,
    network: &Network,
    flow: u16,
    place: Place,
    fault: RouteFault,
) -> Result<Value, AllocError>
    ensures { IfOk result (λ v. view v ≡ misrouted_value network.now flow place fault) }
{
    let channel = place.channel.number();
    let deleted = place.deleted;
    let code = route_fault_code(fault);
    let name = flow_name(network, flow);
    let text = misrouted_words(alloc, network, flow, place, fault)?;
    let members = vec![in alloc;
        ("channel", Member::Number(u64::from(channel))),
        ("code", Member::Text(code)),
        ("deleted", Member::Number(u64::from(deleted))),
        ("flow", Member::Text(name)),
        ("kind", Member::Text("misrouted")),
        ("text", Member::Value(Value::String(text))),
    ]?;
    object_of(alloc, members)
}

/// The object that stands for a verdict on the network. `text` is the text of its certificate, empty where the verdict has none.
///
/// # Errors
///
/// There is no memory for the value.
pub fn verdict_value(
    alloc: Global,
    network: &Network,
    verdict: &Verdict,
    text: &[u8],
) -> Result<Value, AllocError>
    requires found { IsVerdict network.now verdict.now }
    requires text { text.now ≡ certificate_bytes verdict.now }
    ensures { IfOk result (λ v. view v ≡ verdict_value network.now verdict.now) }
{
    match verdict {
        Verdict::Misrouted(flow, place, fault) => {
            misrouted_value(alloc, network, *flow, *place, *fault)
        }
        Verdict::Cyclic(cycle) => cyclic_value(alloc, network, cycle),
        Verdict::Free(certificate) => free_value(alloc, network, certificate, text),
    }
}
