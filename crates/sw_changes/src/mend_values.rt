//! What frees a network, as values.
ghost use Rattle.std.specs.Prelude.{◌≡◌, ◌++◌, ◌∷◌, [], Bool, IfOk, IsOkAnd, OnOk, codes, map, slice_get, string_bytes};
ghost use Rattle.serde_json.specs.Data.{string};
ghost use Rattle.serde_json.specs.View.{view};
ghost use Rattle.sw_changes.specs.Mendings.{IsMending};
ghost use Rattle.sw_config.specs.Entries.{routes_of};
ghost use Rattle.sw_json.specs.Objects.{member_value, object_of};
ghost use Rattle.sw_json.specs.VerdictValues.{verdict_value};
ghost use Rattle.sw_search.specs.Verdicts.{IsVerdict};
ghost use Rattle.sw_changes.specs.MendValues.{change_value, cure_values, first_value, last_value, limiting_mends, mend_value, mend_words, mending_value, mends_value, of_entry, of_nodes, of_port, pair_value, pair_words, told_mend, trial_value};

use crate::limiting_values::{limiting_line, limiting_values};
use crate::mend_texts::{change_words, told_pairs, trial_words};
use crate::mending::{Cures, Mending};
use serde_json::Value;
use std::alloc::{AllocError, Global};
use sw_config::Network;
use sw_flow::{Place, RouteFault};
use sw_json::{Member, add_value, kind_value, object_of, verdict_value};
use sw_mend::{Change, Limiting, Pair, Trial};
use sw_output::{flow_name, node_name, switch_name};
use sw_route::Route;
use sw_search::Verdict;
use sw_topo::Port;

/// The entry of that number of the switch's table, if there is one.
fn route_at(network: &Network, switch: u16, entry: usize) -> Option<Route>
    ensures { result ≡ slice_get (routes_of network.now.switches switch) entry }
{
    if switch >= network.switches() {
        return None;
    }
    network.routes(switch).get(entry).copied()
}

/// The addresses that the entry is for: the first, and the last.
fn addresses(network: &Network, switch: u16, entry: usize) -> (Member<'static>, Member<'static>)
    ensures first { member_value result.0 ≡ first_value network.now switch entry }
    ensures last { member_value result.1 ≡ last_value network.now switch entry }
{
    match route_at(network, switch, entry) {
        Some(route) => {
            let first = Member::Number(u64::from(route.first));
            let last = Member::Number(u64::from(route.last));
            (first, last)
        }
        None => (Member::Value(Value::Null), Member::Value(Value::Null)),
    }
}

/// A change of what goes with a flow or a node, which is told by its name under this key.
fn named_change<'a>(
    alloc: Global,
    kind: &'a str,
    key: &'a str,
    name: &'a str,
) -> Result<Value, AllocError>
    ensures { IfOk result (λ v. view v ≡ object_of ((key.now, string name.now) ∷ (codes "kind", string kind.now) ∷ [])) }
{
    let members = vec![in alloc; (key, Member::Text(name)), ("kind", Member::Text(kind))]?;
    object_of(alloc, members)
}

/// A change of what goes with the flows from one node to another.
fn of_nodes(
    alloc: Global,
    network: &Network,
    kind: &str,
    from: u16,
    to: u16,
) -> Result<Value, AllocError>
    ensures { IfOk result (λ v. view v ≡ of_nodes network.now kind.now from to) }
{
    let from = node_name(network, from);
    let to = node_name(network, to);
    let members = vec![in alloc;
        ("from", Member::Text(from)),
        ("kind", Member::Text(kind)),
        ("to", Member::Text(to)),
    ]?;
    object_of(alloc, members)
}

/// A port less for the addresses of a table entry.
fn of_port(
    alloc: Global,
    network: &Network,
    switch: u16,
    entry: usize,
    port: Port,
) -> Result<Value, AllocError>
    ensures { IfOk result (λ v. view v ≡ of_port network.now switch entry port) }
{
    let port = port.number();
    let name = switch_name(network, switch);
    let (first, last) = addresses(network, switch, entry);
    let members = vec![in alloc;
        ("first", first),
        ("kind", Member::Text("port")),
        ("last", last),
        ("port", Member::Number(u64::from(port))),
        ("switch", Member::Text(name)),
    ]?;
    object_of(alloc, members)
}

/// A table entry less.
fn of_entry(
    alloc: Global,
    network: &Network,
    switch: u16,
    entry: usize,
) -> Result<Value, AllocError>
    ensures { IfOk result (λ v. view v ≡ of_entry network.now switch entry) }
{
    let name = switch_name(network, switch);
    let (first, last) = addresses(network, switch, entry);
    let members = vec![in alloc;
        ("first", first),
        ("kind", Member::Text("entry")),
        ("last", last),
        ("switch", Member::Text(name)),
    ]?;
    object_of(alloc, members)
}

/// What is taken away.
fn change_value(alloc: Global, network: &Network, change: &Change) -> Result<Value, AllocError>
    ensures { IfOk result (λ v. view v ≡ change_value network.now change.now) }
{
    match change {
        Change::WithoutReply(flow) => {
            named_change(alloc, "reply", "flow", flow_name(network, *flow))
        }
        Change::WithoutReplies { from, to } => {
            of_nodes(alloc, network, "replies between", *from, *to)
        }
        Change::WithoutFlow(flow) => named_change(alloc, "flow", "flow", flow_name(network, *flow)),
        Change::WithoutAnswers(node) => {
            named_change(alloc, "replies", "node", node_name(network, *node))
        }
        Change::WithoutPort {
            switch,
            entry,
            port,
        } => of_port(alloc, network, *switch, *entry, *port),
        Change::WithoutEntry { switch, entry } => of_entry(alloc, network, *switch, *entry),
        Change::WithoutFlowsOf(node) => {
            named_change(alloc, "flows", "node", node_name(network, *node))
        }
    }
}

/// What is taken away, or what the target of a node gets.
fn trial_value(alloc: Global, network: &Network, trial: &Trial) -> Result<Value, AllocError>
    ensures { IfOk result (λ v. view v ≡ trial_value network.now trial.now) }
{
    match trial {
        Trial::Without(change) => change_value(alloc, network, change),
        Trial::Split(link) => {
            let name = node_name(network, link.node);
            let port = link.port.number();
            let switch = switch_name(network, link.switch);
            let members = vec![in alloc;
                ("kind", Member::Text("target link")),
                ("node", Member::Text(name)),
                ("port", Member::Number(u64::from(port))),
                ("switch", Member::Text(switch)),
            ]?;
            object_of(alloc, members)
        }
    }
}

/// The line of a change that frees the network, without its LF.
fn mend_words(alloc: Global, network: &Network, trial: &Trial) -> Result<String, AllocError>
    ensures { IfOk result (λ s. string_bytes s ≡ mend_words network.now trial.now) }
{
    let words = trial_words(alloc, network, trial)?;
    format!(in alloc; "free {words}")
}

/// The line of a pair of changes that free it, without its LF.
fn pair_words(alloc: Global, network: &Network, pair: &Pair) -> Result<String, AllocError>
    ensures { IfOk result (λ s. string_bytes s ≡ pair_words network.now pair.now) }
{
    let first = change_words(alloc, network, &pair.first)?;
    let second = change_words(alloc, network, &pair.second)?;
    format!(in alloc; "free {first} and {second}")
}

/// Changes that free the network together, with their line.
fn told_mend(
    alloc: Global,
    changes: Vec<Value>,
    text: Result<String, AllocError>,
) -> Result<Value, AllocError>
    ensures { IfOk result (λ v. IsOkAnd text (λ t. view v ≡ told_mend (map view changes.items) (string_bytes t))) }
{
    let text = text?;
    let members = vec![in alloc;
        ("changes", Member::Value(Value::Array(changes))),
        ("text", Member::Value(Value::String(text))),
    ]?;
    object_of(alloc, members)
}

/// A single change that frees the network.
fn mend_value(alloc: Global, network: &Network, trial: &Trial) -> Result<Value, AllocError>
    ensures { IfOk result (λ v. view v ≡ mend_value network.now trial.now) }
{
    let mut changes = Vec::new(alloc);
    add_value(trial_value(alloc, network, trial), &mut changes)?;
    told_mend(alloc, changes, mend_words(alloc, network, trial))
}

/// A pair of changes that free it.
fn pair_value(alloc: Global, network: &Network, pair: &Pair) -> Result<Value, AllocError>
    ensures { IfOk result (λ v. view v ≡ pair_value network.now pair.now) }
{
    let mut changes = Vec::new(alloc);
    add_value(change_value(alloc, network, &pair.first), &mut changes)?;
    add_value(change_value(alloc, network, &pair.second), &mut changes)?;
    told_mend(alloc, changes, pair_words(alloc, network, pair))
}

/// Adds an object for the limit and the slots that free the network together, if there are such.
fn add_limiting(
    alloc: Global,
    network: &Network,
    limiting: &Option<Limiting>,
    values: &mut Vec<Value>,
) -> Result<(), AllocError>
    ensures { OnOk result (map view values.new.items ≡ map view values.old.items ++ limiting_mends network.now limiting.now) }
{
    match limiting {
        Some(limiting) => {
            let changes = limiting_values(alloc, network, limiting)?;
            let mend = told_mend(alloc, changes, limiting_line(alloc, network, limiting));
            add_value(mend, values)
        }
        None => Ok(()),
    }
}

/// Adds an object for each change.
fn add_mends(
    alloc: Global,
    network: &Network,
    changes: &[Trial],
    values: &mut Vec<Value>,
) -> Result<(), AllocError>
    ensures { OnOk result (map view values.new.items ≡ map view values.old.items ++ map (mend_value network.now) changes.now) }
{
    for change in changes {
        add_value(mend_value(alloc, network, change), values)?;
    }
    Ok(())
}

/// Adds an object for each pair of changes.
fn add_pairs(
    alloc: Global,
    network: &Network,
    pairs: &[Pair],
    values: &mut Vec<Value>,
) -> Result<(), AllocError>
    ensures { OnOk result (map view values.new.items ≡ map view values.old.items ++ map (pair_value network.now) pairs.now) }
{
    for pair in pairs {
        add_value(pair_value(alloc, network, pair), values)?;
    }
    Ok(())
}

/// An object for the limit and the slots, then for each change of a part, each pair, and each unit.
fn cure_values(alloc: Global, network: &Network, cures: &Cures) -> Result<Vec<Value>, AllocError>
    ensures { IfOk result (λ v. map view v.items ≡ cure_values network.now cures.now) }
{
    let mut values = Vec::new(alloc);
    add_limiting(alloc, network, &cures.limiting, &mut values)?;
    add_mends(alloc, network, &cures.changes, &mut values)?;
    add_pairs(alloc, network, told_pairs(cures), &mut values)?;
    add_mends(alloc, network, &cures.units, &mut values)?;
    Ok(values)
}

/// All that is told, if there was memory for it.
fn told_mends(alloc: Global, mends: Result<Vec<Value>, AllocError>) -> Result<Value, AllocError>
    ensures { IfOk result (λ v. IsOkAnd mends (λ m. view v ≡ mends_value (map view m.items))) }
{
    let mends = mends?;
    let members = vec![in alloc;
        ("kind", Member::Text("mends")),
        ("mends", Member::Value(Value::Array(mends))),
    ]?;
    object_of(alloc, members)
}

/// The verdict that a flow is not well routed.
fn misrouted_value(
    alloc: Global,
    network: &Network,
    flow: u16,
    place: Place,
    fault: RouteFault,
) -> Result<Value, AllocError>
    requires { IsVerdict network.now (Verdict.Misrouted flow place fault) }
    ensures { IfOk result (λ v. view v ≡ verdict_value network.now (Verdict.Misrouted flow place fault)) }
{
    let verdict = Verdict::Misrouted(flow, place, fault);
    verdict_value(alloc, network, &verdict, &[])
}

/// The object that stands for what is found of the network.
#[tactic(auto, using(crate::proofs::ToldMends::told_all))]
pub(crate) fn mending_value(
    alloc: Global,
    network: &Network,
    mending: &Mending,
) -> Result<Value, AllocError>
    requires { (pairs : Bool) × IsMending pairs network.now mending.now }
    ensures { IfOk result (λ v. view v ≡ mending_value network.now mending.now) }
{
    match mending {
        Mending::Misrouted(flow, place, fault) => {
            misrouted_value(alloc, network, *flow, *place, *fault)
        }
        Mending::Free => kind_value(alloc, "free"),
        Mending::Cyclic(cures) => told_mends(alloc, cure_values(alloc, network, cures)),
    }
}
