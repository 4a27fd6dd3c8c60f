//! A network whose steps are written down.

use crate::awaited::Awaited;
use crate::load::Load;
use crate::marks::{is_set, marks, put};
use crate::random::Random;
use crate::wake::wake_after;
use std::alloc::{AllocError, Global};
use sw_arb::Policy;
use sw_char::End;
use sw_config::Network;
use sw_flow::Place;
use sw_machine::{Move, Step};
use sw_schedule::{MAX_STEPS, Net, SwitchRoutes, Unanswered, declared_net, entry_text, make_step};
use sw_topo::LinkEnd;
use sw_topo::limits::MAX_CHANNELS;

/// How often all link ends may make a step after all packets were placed, at most.
const MOST_SWEEPS: u32 = 20_000;

/// A network in some state, and the schedule of the steps that led there. It is not let go but by `finish`.
pub(crate) struct ScheduledNet<'n> {
    net: Net<'n, SwitchRoutes<'n>, Policy>,
    unanswered: Unanswered,
    awaited: Awaited,
    // By link end, whether a step may be possible there, as far as is known.
    awake: Vec<bool>,
    /// The schedule.
    pub(crate) text: String,
    /// How many steps it has.
    pub(crate) steps: u32,
    /// Whether a step was made since this was last unset.
    pub(crate) moved: bool,
    /// Whether memory was wanting. No step is made from then on.
    pub(crate) failed: bool,
}

/// How many bytes of the flow's address are left at its end.
fn bytes_left(network: &Network, flow: u16) -> usize {
    if flow >= network.flows() {
        return 0;
    }
    usize::from(network.flow(flow).left())
}

/// Adds the line of the step to the text of those that were made.
fn add_line(
    alloc: Global,
    network: &Network,
    step: &Step,
    text: &mut String,
) -> Result<(), AllocError> {
    let line = entry_text(alloc, network, step, 1)?;
    text.push_str(&line)
}

impl<'n> ScheduledNet<'n> {
    /// The network in its first state.
    pub(crate) fn new(alloc: Global, network: &'n Network) -> Result<ScheduledNet<'n>, AllocError> {
        let unanswered = Unanswered::new(alloc, network)?;
        Ok(ScheduledNet {
            net: declared_net(alloc, network)?,
            unanswered,
            awaited: Awaited::new(alloc),
            awake: marks(alloc, network.channels(), true)?,
            text: String::new(alloc),
            steps: 0,
            moved: false,
            failed: false,
        })
    }

    /// Makes the step as often as it is possible and the schedule may have one more, at most so many times.
    fn make(&mut self, alloc: Global, step: Step, most: u32) {
        for _ in 0..most {
            if self.failed || self.steps >= MAX_STEPS {
                break;
            }
            match make_step(alloc, &mut self.net, &mut self.unanswered, &step) {
                Ok(None) => {
                    self.failed = add_line(
                        alloc,
                        self.net.network(),
                        &step,
                        &mut self.text,
                    ).is_err();
                    self.steps += 1;
                    self.moved = true;
                    wake_after(self.net.network(), &mut self.awake, &step);
                }
                Ok(Some(_)) => break,
                Err(AllocError) => self.failed = true,
            }
        }
    }

    /// The same of a step that begins no packet.
    pub(crate) fn repeat(&mut self, alloc: Global, step: Move, most: u32) {
        self.make(alloc, Step::Move(step), most);
    }

    /// Looks at the replies that came out at the node.
    fn look_at_replies(&mut self, alloc: Global, node: u16) -> Result<(), AllocError> {
        if node < self.net.network().nodes() {
            let packets = self.net.came_out(alloc, node)?;
            self.awaited.take_replied(node, &packets);
        }
        Ok(())
    }

    /// May the node that is the flow's source begin one more packet of it, as far as its limits go?
    fn may_begin(&mut self, alloc: Global, flow: u16) -> Result<bool, AllocError> {
        let network = self.net.network();
        if self.awaited.allows(network, flow) {
            return Ok(true);
        }
        if flow < network.flows() {
            self.look_at_replies(alloc, network.flow(flow).from())?;
        }
        Ok(self.awaited.allows(network, flow))
    }

    /// Begins a packet, if the limits of its initiator are kept, and gives how many bytes of it come out at its end.
    fn try_begin(&mut self, alloc: Global, load: Load) -> Result<u32, AllocError> {
        if !self.may_begin(alloc, load.flow)? {
            return Ok(0);
        }
        let network = self.net.network();
        let flow = load.flow;
        let identifier = if flow < network.flows() && network.is_limited(flow) {
            self.awaited.identifier()
        } else {
            None
        };
        let (cargo, chosen) = load.cargo(alloc, network, identifier)?;
        let count = bytes_left(network, flow).saturating_add(cargo.len());
        let step = Step::Begin {
            flow,
            cargo,
            end: End::Eop,
        };
        self.make(alloc, step, 1);
        if self.moved {
            self.awaited.add(network, flow, chosen)?;
        }
        Ok(u32::try_from(count).unwrap_or(0))
    }

    /// Begins a packet, if it can be, and the limits of its initiator are kept. How many bytes of it come out at its end; none where it was
    /// not begun.
    pub(crate) fn begin(&mut self, alloc: Global, load: Load) -> Option<u32> {
        self.moved = false;
        match self.try_begin(alloc, load) {
            Ok(count) if self.moved => Some(count),
            Ok(_) => None,
            Err(AllocError) => {
                self.failed = true;
                None
            }
        }
    }

    /// Moves characters from a node along a way, and no further: into each channel from the one before it, and to its end.
    pub(crate) fn advance(&mut self, alloc: Global, node: u16, way: &[Place]) {
        let mut before = None;
        for place in way {
            let channel = place.channel;
            self.repeat(alloc, Move::Fct(channel), 8);
            self.repeat(alloc, Move::FctIn(channel), 8);
            match before {
                None => self.repeat(alloc, Move::Emit(node), 64),
                Some(input) => {
                    self.repeat(alloc, Move::Grant(channel, input), 1);
                    self.repeat(alloc, Move::Forward(input), 64);
                }
            }
            self.repeat(alloc, Move::Arrive(channel), 64);
            before = Some(channel);
        }
    }

    /// Each link end makes a step, if one is possible other than to begin a packet, those from a number on first; replies are begun only where
    /// they may leave. Whether a step was made.
    pub(crate) fn sweep(
        &mut self,
        alloc: Global,
        random: &mut Random,
        replies_leave: bool,
    ) -> bool {
        let channels = self.net.network().channels();
        self.moved = false;
        let mut number = random.number(MAX_CHANNELS as u16);
        for _ in 0..channels {
            if number >= channels {
                number = 0;
            }
            if number < self.net.network().channels() && is_set(&self.awake, number) {
                match self.net.possible_at(LinkEnd::new(number)) {
                    Some(Step::Move(Move::Reply(_))) if !replies_leave => {}
                    Some(step) => self.make(alloc, step, 1),
                    None => put(&mut self.awake, number, false),
                }
            }
            number = number.saturating_add(1);
        }
        self.moved
    }

    /// Lets the network go on until nothing can, but that packets are begun.
    pub(crate) fn run(&mut self, alloc: Global, random: &mut Random) {
        for _ in 0..MOST_SWEEPS {
            if !self.sweep(alloc, random, true) {
                break;
            }
        }
    }

    /// The schedule, if the network is locked up after it.
    pub(crate) fn finish(self) -> Result<Option<String>, AllocError> {
        let ScheduledNet {
            net,
            unanswered: _,
            awaited: _,
            awake: _,
            text,
            steps: _,
            moved: _,
            failed,
        } = self;
        let locked = net.quiet() && net.undelivered() > 0;
        net.discard();
        if failed {
            Err(AllocError)
        } else if locked {
            Ok(Some(text))
        } else {
            Ok(None)
        }
    }
}
