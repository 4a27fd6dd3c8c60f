//! What is to be done so that channels wait for one another in a circle.
ghost use Rattle.std.specs.Prelude.{◌<◌, length};
ghost use Rattle.sw_config.specs.Entries.{all_flows};

use crate::awaited::Awaited;
use crate::leg::{Extent, Leg};
use crate::load::Load;
use crate::random::Random;
use crate::task::{Action, Task};
use crate::ways::Ways;
use crate::worm::{last_places, long_cargo, long_packets, short_cargo};
use std::alloc::{AllocError, Global};
use sw_config::Network;
use sw_topo::PlaceEnd;

/// What is to be done, and which commands it begins.
#[derive(Drop)]
struct Plan<'a> {
    network: &'a Network,
    ways: &'a Ways,
    tasks: Vec<Task>,
    begun: Awaited,
    // Whether it can't be done, since too few commands may be unanswered.
    failed: bool,
}

impl Plan<'_> {
    /// Counts a packet of the flow, which has to be one that may be begun.
    fn count(&mut self, flow: u16) -> Result<(), AllocError> {
        if !self.begun.allows(self.network, flow) {
            self.failed = true;
        }
        self.begun.add(self.network, flow, None)
    }

    /// Something is done with a command of the flow on its whole way.
    fn add_of_command(
        &mut self,
        alloc: Global,
        flow: u16,
        action: Action,
        is_first: bool,
    ) -> Result<(), AllocError> {
        let network = self.network;
        if flow >= network.flows() {
            return Ok(());
        }
        let way = self.ways.of(flow).to_vec(alloc)?;
        let passed = way.len();
        let entry = network.flow(flow);
        self.tasks.push(Task {
            action,
            load: Load {
                flow,
                is_command: true,
                length: 0,
            },
            node: entry.from(),
            target: entry.to(),
            way,
            passed,
            most: 1,
            is_first,
        })?;
        Ok(())
    }

    /// A command of the flow is brought to its target, which takes it.
    fn deliver(&mut self, alloc: Global, flow: u16, is_first: bool) -> Result<(), AllocError> {
        self.count(flow)?;
        self.add_of_command(alloc, flow, Action::Send, is_first)?;
        self.add_of_command(alloc, flow, Action::Take, false)
    }

    /// A reply of the flow is brought to where it holds the channel of the leg.
    fn answer(&mut self, alloc: Global, flow: u16, leg: &Leg) -> Result<(), AllocError> {
        let network = self.network;
        if flow >= network.flows() {
            return Ok(());
        }
        let command = self.ways.command_flow(flow);
        self.deliver(alloc, command, true)?;
        let way = self.ways.up_to(flow, leg.from).to_vec(alloc)?;
        let entry = network.flow(flow);
        self.tasks.push(Task {
            action: Action::Answer,
            load: Load {
                flow: command,
                is_command: true,
                length: 0,
            },
            node: entry.from(),
            target: entry.to(),
            way,
            passed: 0,
            most: 1,
            is_first: false,
        })?;
        Ok(())
    }

    /// A packet of the flow is brought to where it holds the channel of the leg: a short one, which holds so many channels up to that, or, if
    /// there is no such number, a long one, the tail of which is held up at its source even if the channel that it waits for has room. More
    /// follow where one can't be so long, unless the flow's commands are limited.
    fn park(
        &mut self,
        alloc: Global,
        flow: u16,
        leg: &Leg,
        short: Option<usize>,
    ) -> Result<(), AllocError> {
        let network = self.network;
        if flow >= network.flows() {
            return Ok(());
        }
        self.count(flow)?;
        let way = self.ways.up_to(flow, leg.from).to_vec(alloc)?;
        let entry = network.flow(flow);
        let is_command = network.is_limited(flow);
        let (length, passed, most) = match short {
            Some(count) => {
                let last = last_places(&way, count);
                let length = short_cargo(network, entry.address().len(), last);
                (length, way.len().saturating_sub(count), 1)
            }
            None => {
                let whole = self.ways.up_to(flow, leg.to);
                let most = if is_command {
                    1
                } else {
                    long_packets(network, whole)
                };
                (long_cargo(network, whole), 0, most)
            }
        };
        self.tasks.push(Task {
            action: Action::Park,
            load: Load {
                flow,
                is_command,
                length,
            },
            node: entry.from(),
            target: entry.to(),
            way,
            passed,
            most,
            is_first: false,
        })?;
        Ok(())
    }

    /// The packet is placed that holds the channel of the leg, and so many up to that, if that is the last that it holds: a reply, or a packet of
    /// a declared flow.
    fn add_packet(
        &mut self,
        alloc: Global,
        random: &mut Random,
        leg: &Leg,
        after: &Leg,
        held: usize,
    ) -> Result<(), AllocError> {
        let Some(flow) = leg.flow else {
            return Ok(());
        };
        if after.flow == leg.flow {
            return Ok(());
        }
        if flow >= self.network.declared_flows() {
            return self.answer(alloc, flow, leg);
        }
        let is_short = match leg.extent {
            Extent::Any => held == 1 && random.below(3) == 0,
            Extent::Long => false,
            Extent::Short => true,
        };
        self.park(alloc, flow, leg, if is_short { Some(held) } else { None })
    }

    /// The target at the end of the leg gets as many commands as it may owe replies, but for that to which the reply on the next leg is, if
    /// one is: of flows of which one more may be begun, each as likely as another. And often a short packet waits at it.
    fn add_commands(
        &mut self,
        alloc: Global,
        random: &mut Random,
        leg: &Leg,
        after: &Leg,
    ) -> Result<(), AllocError> {
        let network = self.network;
        if leg.flow.is_some() || leg.from.number() >= network.channels() {
            return Ok(());
        }
        let PlaceEnd::Node(node) = network.topology().end_of(leg.from) else {
            return Ok(());
        };
        let Some(target) = network.target(node) else {
            return Ok(());
        };
        for _ in u8::from(is_of_reply(network, after))..target.slots {
            match self.any_to(random, node, true) {
                Some(flow) => self.deliver(alloc, flow, false)?,
                None => self.failed = true,
            }
        }
        if random.below(2) == 0 {
            if let Some(flow) = self.any_to(random, node, false) {
                self.park(alloc, flow, leg, Some(1))?;
            }
        }
        Ok(())
    }

    /// A flow to the node of which one more packet may be begun, if there is one, or a flow of commands alone: each as likely as another.
    fn any_to(&self, random: &mut Random, node: u16, of_commands: bool) -> Option<u16> {
        let network = self.network;
        let mut chosen = None;
        let mut count = 0usize;
        for flow in 0..network.declared_flows() {
            if leads_to(network, flow, node, of_commands) && self.begun.allows(network, flow) {
                count = count.saturating_add(1);
                if random.below(count) == 0 {
                    chosen = Some(flow);
                }
            }
        }
        chosen
    }
}

/// Does the flow lead to the node, with commands if it is to be one of these?
fn leads_to(network: &Network, flow: u16, node: u16, of_commands: bool) -> bool
    requires { flow < length (all_flows network.now) }
{
    let entry = network.flow(flow);
    entry.to() == node && (!of_commands || entry.reply().is_some())
}

/// Is the leg of a reply?
fn is_of_reply(network: &Network, leg: &Leg) -> bool {
    match leg.flow {
        Some(flow) => flow >= network.declared_flows(),
        None => false,
    }
}

/// The leg behind that of this index, in the circle.
fn leg_behind(legs: &[Leg], index: usize) -> Option<&Leg> {
    match legs.get(index.saturating_add(1)) {
        Some(leg) => Some(leg),
        None => legs.first(),
    }
}

/// What is to be done for the legs, in no order; none where too few commands may be unanswered for it.
pub(crate) fn planned_tasks(
    alloc: Global,
    network: &Network,
    random: &mut Random,
    ways: &Ways,
    legs: &[Leg],
) -> Result<Option<Vec<Task>>, AllocError> {
    let mut plan = Plan {
        network,
        ways,
        tasks: Vec::new(alloc),
        begun: Awaited::new(alloc),
        failed: false,
    };
    let mut held = 0usize;
    let mut before = None;
    for (index, leg) in legs.iter().enumerate() {
        held = if leg.flow == before {
            held.saturating_add(1)
        } else {
            1
        };
        before = leg.flow;
        if let Some(next) = leg_behind(legs, index) {
            plan.add_packet(alloc, random, leg, next, held)?;
        }
    }
    for (index, leg) in legs.iter().enumerate() {
        if let Some(next) = leg_behind(legs, index) {
            plan.add_commands(alloc, random, leg, next)?;
        }
    }
    if plan.failed {
        Ok(None)
    } else {
        Ok(Some(plan.tasks))
    }
}
