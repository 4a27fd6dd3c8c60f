//! What is told of a network.
ghost use Rattle.std.specs.Prelude.{◌≡◌, ◌++◌, OnOk};
ghost use Rattle.std.specs.Option.{option_to_list};

use std::alloc::AllocError;
use sw_topo::Port;

/// What is probably a slip in a network, although it is valid. Nodes, switches, links and flows are told by their numbers, and the entries
/// of a routing table too, counted from 0.
#[derive(Clone, Copy)]
pub enum Lint {
    /// The network has no flows.
    NoFlows,
    /// No declared flow is from the node or to it.
    UnusedNode(u16),
    /// No flow goes over the switch.
    UnusedSwitch(u16),
    /// The node is a target, and a declared flow is from it, but none is to it.
    UnusedTarget(u16),
    /// No packet comes to the switch that the entry of its table is for.
    UnusedEntry {
        switch: u16,
        entry: usize,
    },
    /// The entry names several ports, of which this one alone has a link.
    OneLinkedPort {
        switch: u16,
        entry: usize,
        port: Port,
    },
    /// The entry names several ports that have links, and packets of the flow that it is for come by this one of them.
    LeadsBack {
        switch: u16,
        entry: usize,
        port: Port,
        flow: u16,
    },
    /// Two flows with replies go over the link, the one from its end `a` to its end `b` and the other back, to two targets, one of which
    /// does not always take what comes.
    Opposed {
        link: u16,
        onward: u16,
        back: u16,
    },
    /// Packets of the flow come to a target with this address as the first of those that are left, which is not its logical address.
    WrongTarget {
        flow: u16,
        address: u8,
        logical: u8,
    },
    /// Replies of the flow lead with this initiator logical address, which is none that its node is known to have: by its target, or by a
    /// flow to it.
    WrongInitiator {
        flow: u16,
        initiator: u8,
    },
    /// The flow and an earlier one go from one node to one target, and their initiator logical addresses differ.
    TwoInitiators {
        earlier: u16,
        flow: u16,
        one: u8,
        other: u8,
    },
}

/// Adds what is told, if there is something.
pub(crate) fn add(found: Option<Lint>, lints: &mut Vec<Lint>) -> Result<(), AllocError>
    ensures { OnOk result (lints.new.items ≡ lints.old.items ++ option_to_list found) }
{
    if let Some(lint) = found {
        lints.push(lint)?;
    }
    Ok(())
}
