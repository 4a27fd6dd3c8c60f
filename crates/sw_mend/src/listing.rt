//! What is tried of what can be taken away.
ghost use Rattle.std.specs.Prelude.{◌≡◌, ◌<◌, ◌≤◌, ◌++◌, ◌∷◌, [], IfOk, OnOk, flat_map, if◌then◌else◌, length, map, nat_lt, take};
ghost use Rattle.sw_topo.specs.Ports.{ports_of};
ghost use Rattle.sw_mend.specs.declared.change.Change.TheVariants.{WithoutPort};
ghost use Rattle.sw_mend.specs.Changes.{answered_between, by_number, entry_away, is_answered_between, is_first_of_several, ports_away};
ghost use Rattle.sw_mend.specs.Kinds.{away_at, count_of, kind_away};

use crate::change::Change;
use std::alloc::{AllocError, Global};
use std::marker::Model;
use sw_config::{Flow, Network};
use sw_route::Route;
use sw_topo::PortSet;

/// What is taken away before nodes are split, in the order in which it is tried.
pub(crate) const PARTS: &[Kind] = &[
    Kind::Reply,
    Kind::Replies,
    Kind::Flow,
    Kind::Answers,
    Kind::Port,
    Kind::Entry,
];

/// What is taken away of units.
pub(crate) const UNITS: &[Kind] = &[Kind::Unit];

/// All that can be taken away, in its order.
pub(crate) const PARTS_AND_UNITS: &[Kind] = &[
    Kind::Reply,
    Kind::Replies,
    Kind::Flow,
    Kind::Answers,
    Kind::Port,
    Kind::Entry,
    Kind::Unit,
];

/// What is taken away of each flow, node or switch.
#[derive(Clone, Copy)]
pub(crate) enum Kind {
    /// The reply of a flow.
    Reply,
    /// The replies of all flows from a node to another, at the first of them.
    Replies,
    /// A flow.
    Flow,
    /// The answers of a target.
    Answers,
    /// A port of a group of a switch's table.
    Port,
    /// An entry of a switch's table.
    Entry,
    /// The flows of a node.
    Unit,
}

/// Adds the thing.
pub(crate) fn add<T: Copy>(thing: T, things: &mut Vec<T>) -> Result<(), AllocError>
    ensures { OnOk result (things.new.items ≡ things.old.items ++ thing ∷ []) }
{
    things.push(thing)?;
    Ok(())
}

/// Adds the thing, if so.
pub(crate) fn add_if<T: Copy>(is_so: bool, thing: T, things: &mut Vec<T>) -> Result<(), AllocError>
    ensures { OnOk result (things.new.items ≡ things.old.items ++ (if is_so then thing ∷ [] else [])) }
{
    if is_so { add(thing, things) } else { Ok(()) }
}

/// One port of the entry away, if it is a group.
fn add_group(
    switch: u16,
    entry: usize,
    set: PortSet,
    changes: &mut Vec<Change>,
) -> Result<(), AllocError>
    ensures { OnOk result (changes.new.items ≡ changes.old.items ++ (if nat_lt 1 (length (ports_of set)) then map (λ port. WithoutPort switch entry port) (ports_of set) else [])) }
{
    if set.len() < 2 {
        return Ok(());
    }
    for port in set.ports() {
        let change = Change::WithoutPort {
            switch,
            entry,
            port,
        };
        add(change, changes)?;
    }
    Ok(())
}

/// One port of one group of these away.
fn add_groups_of(switch: u16, routes: &[Route], changes: &mut Vec<Change>) -> Result<(), AllocError>
    ensures { OnOk result (changes.new.items ≡ changes.old.items ++ by_number (ports_away switch) 0 routes.now) }
{
    for (entry, route) in routes.iter().enumerate() {
        add_group(switch, entry, route.ports, changes)?;
    }
    Ok(())
}

/// One of these entries away.
fn add_entries_of(
    switch: u16,
    routes: &[Route],
    changes: &mut Vec<Change>,
) -> Result<(), AllocError>
    ensures { OnOk result (changes.new.items ≡ changes.old.items ++ by_number (entry_away switch) 0 routes.now) }
{
    for entry in 0..routes.len() {
        add(Change::WithoutEntry { switch, entry }, changes)?;
    }
    Ok(())
}

/// Has the flow a reply, and does it go from the one node to the other?
fn is_answered_between(flow: &Flow, from: u16, to: u16) -> bool
    ensures { result ≡ is_answered_between from to flow.now }
{
    flow.reply().is_some() && flow.from() == from && flow.to() == to
}

/// How many of the declared flows below that number do?
fn answered_between(network: &Network, from: u16, to: u16, end: u16) -> u16
    requires { end ≤ length network.now.flows }
    ensures { result ≡ answered_between from to (take end network.now.flows) }
{
    let mut count = 0;
    for number in 0..end {
        if !is_answered_between(network.flow(number), from, to) {
            continue;
        }
        count += 1;
    }
    count
}

/// Is the flow of that number the first of two or more that have a reply and go from its one node to its other?
fn is_first_of_several(network: &Network, number: u16, flow: &Flow) -> bool
    requires { number < length network.now.flows }
    ensures { result ≡ is_first_of_several network.now.flows number flow.now }
{
    let (from, to) = (flow.from(), flow.to());
    let before = answered_between(network, from, to, number);
    let all = answered_between(network, from, to, network.declared_flows());
    flow.reply().is_some() && before == 0 && all > 1
}

/// What is taken away of the flow, the node or the switch of that number.
fn add_at(
    network: &Network,
    kind: Kind,
    number: u16,
    changes: &mut Vec<Change>,
) -> Result<(), AllocError>
    requires { number < count_of network.now kind }
    ensures { OnOk result (changes.new.items ≡ changes.old.items ++ away_at network.now kind number) }
{
    match kind {
        Kind::Reply => {
            let is_answered = network.flow(number).reply().is_some();
            add_if(is_answered, Change::WithoutReply(number), changes)
        }
        Kind::Replies => {
            let flow = network.flow(number);
            let is_first = is_first_of_several(network, number, flow);
            let (from, to) = (flow.from(), flow.to());
            add_if(is_first, Change::WithoutReplies { from, to }, changes)
        }
        Kind::Flow => add(Change::WithoutFlow(number), changes),
        Kind::Answers => {
            let is_target = network.is_target(number);
            add_if(is_target, Change::WithoutAnswers(number), changes)
        }
        Kind::Port => add_groups_of(number, network.routes(number), changes),
        Kind::Entry => add_entries_of(number, network.routes(number), changes),
        Kind::Unit => add(Change::WithoutFlowsOf(number), changes),
    }
}

/// How many flows, nodes or switches there are to take it from.
fn count_of(network: &Network, kind: Kind) -> u16
    ensures { result ≡ count_of network.now kind }
{
    match kind {
        Kind::Reply | Kind::Replies | Kind::Flow => network.declared_flows(),
        Kind::Answers | Kind::Unit => network.nodes(),
        Kind::Port | Kind::Entry => network.switches(),
    }
}

/// All that is taken away of that kind, by numbers.
fn add_all(network: &Network, kind: &Kind, changes: &mut Vec<Change>) -> Result<(), AllocError>
    ensures { OnOk result (changes.new.items ≡ changes.old.items ++ kind_away network.now kind.now) }
{
    for number in 0..count_of(network, *kind) {
        add_at(network, *kind, number, changes)?;
    }
    Ok(())
}

/// All that is taken away of these kinds, one kind after the other.
pub(crate) fn removals(
    alloc: Global,
    network: &Network,
    kinds: &[Kind],
) -> Result<Vec<Change>, AllocError>
    ensures { IfOk result (λ v. v.items ≡ flat_map (kind_away network.now) kinds.now) }
{
    let mut changes = Vec::new(alloc);
    for kind in kinds {
        add_all(network, kind, &mut changes)?;
    }
    Ok(changes)
}
