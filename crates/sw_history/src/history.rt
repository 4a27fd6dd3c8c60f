//! A history, and the network in the state after it.

use crate::fault::StepFault;
use crate::making::make;
use crate::packets::{count_begun, is_same, nothing_begun, within_limit};
use crate::record::Noted;
use std::alloc::{AllocError, Global};
use std::marker::Model;
use sw_arb::Arbiter;
use sw_char::End;
use sw_load::{Load, LoadPacket, Senders};
use sw_machine::Step;
use sw_net::{Net, Unanswered};
use sw_route::Routing;

/// The steps that a network has made from its empty state, which begin packets of a load, each node
/// its own in their order.
#[derive(Drop)]
pub struct History<'n, R: Routing, A: Arbiter> {
    pub(crate) net: Net<'n, R, A>,
    pub(crate) senders: Senders<'n>,
    pub(crate) notes: Vec<Noted>,
    pub(crate) begun: Vec<u32>,
    pub(crate) unanswered: Unanswered,
}

impl<'n, R: Routing, A: Arbiter> Model for History<'n, R, A> {
    ghost use Rattle.std.specs.Prelude.{All, map, ◌-◌, ◌≡◌, ◌*◌, vec_capacity, vec_len};
    ghost use Rattle.sw_history.specs.History.{HistoryView, IsKept};
    ghost use Rattle.sw_history.specs.Noted.{IsNoted, noted_step};

    ghost Value = { HistoryView };

    ghost view = { λ h. record { declared = h.net.declared; load = h.senders.load; steps = map (noted_step h.senders) h.notes.items; room = vec_capacity h.notes - vec_len h.notes } };

    ghost invariant = { λ h. IsKept h.net (record { declared = h.net.declared; load = h.senders.load; steps = map (noted_step h.senders) h.notes.items; room = vec_capacity h.notes - vec_len h.notes }) h.begun.items h.unanswered
        × (h.senders.declared ≡ h.net.declared)
        × All (IsNoted h.senders) h.notes.items };
}

impl<'n, R: Routing, A: Arbiter> History<'n, R, A> {
    ghost use Rattle.std.specs.Prelude.{◌≡◌, ◌<◌, IfErr, IfNone, IfOk, IfSome, OnErr, OnOk, length, option_map};
    ghost use Rattle.sw_history.specs.History.{Adds, IsNext, Keeps};
    ghost use Rattle.sw_history.specs.Next.{BeginsOne, begin_of, beginner_of};
    ghost use Rattle.sw_history.specs.Noted.{IsNoted, noted_step, senders_of};
    ghost use Rattle.sw_history.specs.declared.fault.StepFault.TheVariants.{NotEnabled};
    ghost use Rattle.sw_machine.specs.Steps.{Begin};
    ghost use Rattle.sw_machine.specs.StepValues.{machine_step};
    ghost use Rattle.sw_load.specs.History.{BeginsNext, next_packet, packet_of, packets_of};
    ghost use Rattle.sw_machine.specs.Model.{network_of};

    /// How many steps there are.
    pub fn len(&self) -> usize
        ensures { result ≡ length self.now.steps }
    {
        self.notes.len()
    }

    /// The packet that the node is to begin next. None where it has begun all of its packets.
    pub fn next(&self, node: u16) -> Option<&LoadPacket>
        requires { node < length self.now.declared.nodes }
        ensures { option_map (λ p. packet_of p.now) result ≡ next_packet (network_of self.now.declared) (packets_of self.now.load) self.now.steps node }
    {
        self.senders.packet(node, self.begun[node as usize])
    }

    /// The packet that the node is to begin next, if its beginning is within the limit on unanswered
    /// commands of the node where it ends.
    pub(crate) fn next_within(&self, node: u16) -> Option<&LoadPacket>
        requires { node < length self.now.declared.nodes }
        ensures some { IfSome result (λ p. next_packet (network_of self.now.declared) (packets_of self.now.load) self.now.steps node ≡ Some (packet_of p.now)) }
        ensures keeps { IfSome result (λ p. Keeps self.now (begin_of (packet_of p.now))) }
        ensures none { IfNone result (BeginsOne (network_of self.now.declared) (packets_of self.now.load) self.now.steps node → ⊥) }
    {
        // Names the total, which bounds the counts.
        let _total = self.senders.load().total();
        within_limit(
            self.net.network(),
            &self.senders,
            &self.unanswered,
            node,
            self.begun[node as usize],
        )
    }

    /// Whether these are the flow, cargo and end of the packet that the node where the flow starts is
    /// to begin next, and the limit on unanswered commands lets it: then that node.
    #[inline(never)]
    fn sender(&self, flow: u16, cargo: &[u8], end: End) -> Option<u16>
        ensures some { IfSome result (λ n. n ≡ ((network_of self.now.declared).flow flow).from) }
        ensures within { IfSome result (λ n. n < length self.now.declared.nodes) }
        ensures next { IfSome result (λ n. next_packet (network_of self.now.declared) (packets_of self.now.load) self.now.steps n ≡ Some (record { flow = flow; cargo = cargo.now; end = end })) }
        ensures keeps { IfSome result (λ n. Keeps self.now (Begin flow cargo.now end)) }
        ensures none { IfNone result (IsNext self.now (Begin flow cargo.now end) → ⊥) }
    {
        let network = self.net.network();
        if flow >= network.declared_flows() {
            return None;
        }
        let node = network.flow(flow).from();
        match self.next_within(node) {
            Some(packet) => {
                if is_same(packet, flow, cargo, end) {
                    Some(node)
                } else {
                    None
                }
            }
            None => None,
        }
    }

    /// The node that begins a packet by the step, if it begins one: that has to be its next, within the
    /// limit on unanswered commands.
    #[inline(always)]
    pub(crate) fn beginner(&self, step: &Step) -> Result<Option<u16>, StepFault>
        ensures refused { IfErr result (λ e. (e ≡ NotEnabled) × (IsNext self.now (machine_step step.now) → ⊥)) }
        ensures next { IfOk result (λ n. BeginsNext (network_of self.now.declared) (packets_of self.now.load) self.now.steps (machine_step step.now)) }
        ensures keeps { IfOk result (λ n. Keeps self.now (machine_step step.now)) }
        ensures node { IfOk result (λ n. n ≡ beginner_of (network_of self.now.declared) (machine_step step.now)) }
        ensures within { IfOk result (λ n. IfSome n (λ n. n < length self.now.declared.nodes)) }
    {
        match step {
            Step::Begin { flow, cargo, end } => match self.sender(*flow, cargo, *end) {
                Some(node) => Ok(Some(node)),
                None => Err(StepFault::NotEnabled),
            },
            Step::Move(_) => Ok(None),
        }
    }

    /// The step as it is kept; this is the node that begins a packet by it, if it begins one.
    #[inline(always)]
    fn note(&self, step: &Step, beginner: Option<u16>) -> Noted
        requires next { BeginsNext (network_of self.now.declared) (packets_of self.now.load) self.now.steps (machine_step step.now) }
        requires node { beginner ≡ beginner_of (network_of self.now.declared) (machine_step step.now) }
        requires within { IfSome beginner (λ n. n < length self.now.declared.nodes) }
        ensures step { noted_step (senders_of self.now) result ≡ machine_step step.now }
        ensures sound { IsNoted (senders_of self.now) result }
    {
        // Names the total, which bounds what a node begins.
        let _total = self.senders.load().total();
        match beginner {
            Some(node) => Noted::Begin(node, self.begun[node as usize] as u16),
            None => match step {
                Step::Move(step) => Noted::Move(*step),
                Step::Begin { .. } => unreachable!(),
            },
        }
    }

    /// Makes room for one more step. Nothing else changes.
    ///
    /// # Errors
    ///
    /// There is no memory for the room: then nothing at all has changed.
    pub fn reserve(&mut self) -> Result<(), AllocError>
        ensures room { OnOk result (0 < self.new.room) }
        ensures steps { self.new.steps ≡ self.old.steps }
        ensures declared { self.new.declared ≡ self.old.declared }
        ensures load { self.new.load ≡ self.old.load }
        ensures refused { OnErr result (self.new ≡ self.old) }
    {
        self.notes.reserve(1)
    }

    /// Adds the step, if it may be the next. There has to be room for it.
    ///
    /// # Errors
    ///
    /// `NotEnabled`: the step may not be the next. `Memory`: it may, and there is no memory for
    /// what it stores. The history is then unchanged, and the step is gone.
    #[inline(always)]
    pub fn add(&mut self, alloc: Global, step: Step) -> Result<(), StepFault>
        requires { 0 < self.old.room }
        ensures { Adds self.old (machine_step step) result self.new }
    {
        // Names the total, which bounds what a node begins, and the network, which is valid by its type.
        let _total = self.senders.load().total();
        let _network = self.net.network();
        let beginner = self.beginner(&step)?;
        let note = self.note(&step, beginner);
        let made = make(alloc, &mut self.net, &mut self.unanswered, &step);
        drop(step);
        made?;
        count_begun(self.begun.as_mut_slice(), beginner);
        self.notes.push_reserved(note);
        Ok(())
    }
}

impl<'n, R: Routing + Drop, A: Arbiter + Drop> History<'n, R, A> {
    ghost use Rattle.std.specs.Prelude.{◌≡◌, IfOk, []};
    ghost use Rattle.sw_load.specs.Laws.{AreDeclared};
    ghost use Rattle.sw_machine.specs.State.{empty};
    ghost use Rattle.sw_machine.specs.Model.{network_of};
    ghost use Rattle.sw_net.specs.Net.{IsNetState};

    /// The history of no steps, of a network in its empty state.
    ///
    /// # Errors
    ///
    /// There is no memory for the counts or the lists of what each node sends. `net` is then gone.
    pub fn new(
        alloc: Global,
        net: Net<'n, R, A>,
        load: &'n Load,
    ) -> Result<History<'n, R, A>, AllocError>
        requires state { IsNetState net (empty (network_of net.declared)) }
        requires packets { AreDeclared net.declared load.now }
        ensures network { IfOk result (λ h. h.declared ≡ net.entry.declared) }
        ensures load { IfOk result (λ h. h.load ≡ load.entry.now) }
        ensures steps { IfOk result (λ h. h.steps ≡ []) }
    {
        match nothing_begun(alloc, net.network(), load) {
            Ok((begun, unanswered, senders)) => Ok(History {
                net,
                senders,
                notes: Vec::new(alloc),
                begun,
                unanswered,
            }),
            Err(refused) => {
                net.discard();
                Err(refused)
            }
        }
    }
}
