//! The packets of a load, by the node that sends them.
ghost use Rattle.std.specs.Prelude.{◌≡◌, ◌<◌, IfOk, OnOk, length};
ghost use Rattle.sw_load.specs.Senders.{AreAdded};

use crate::load::{Load, LoadPacket};
use std::alloc::{AllocError, Global};
use std::marker::Model;
use sw_config::Network;

/// What each node of a network is to send of a load, in order.
#[derive(Drop)]
pub struct Senders<'n> {
    network: &'n Network,
    load: &'n Load,
    // By node, for each of its packets the place of its entry in the load.
    places: Vec<Vec<usize>>,
}

impl<'n> Model for Senders<'n> {
    ghost use Rattle.sw_load.specs.Senders.{IsFound, SendersView};

    ghost Value = { SendersView };

    ghost view = { λ s. record { declared = s.network.now; load = s.load.now } };

    ghost invariant = { λ s. IsFound s.network.now s.load.now s.places.items };
}

/// Adds the place of an entry to the row of its node, once for each of its packets.
fn add_places(
    rows: &mut [Vec<usize>],
    node: u16,
    place: usize,
    count: u16,
) -> Result<(), AllocError>
    requires { node < length rows.old }
    ensures { OnOk result (AreAdded node place count rows.old rows.new) }
{
    for _ in 0..count {
        rows[usize::from(node)].push(place)?;
    }
    Ok(())
}

impl<'n> Senders<'n> {
    ghost use Rattle.std.specs.Prelude.{option_map, slice_get};
    ghost use Rattle.sw_load.specs.History.{packet_of, packets_at, packets_of};
    ghost use Rattle.sw_load.specs.Laws.{AreDeclared};
    ghost use Rattle.sw_machine.specs.Model.{network_of};

    /// What the nodes of the network send of the load, whose packets its flows have to declare.
    ///
    /// # Errors
    ///
    /// There is no memory for the places of the packets.
    pub fn new(
        alloc: Global,
        network: &'n Network,
        load: &'n Load,
    ) -> Result<Senders<'n>, AllocError>
        requires { AreDeclared network.now load.now }
        ensures network { IfOk result (λ s. s.declared ≡ network.now) }
        ensures load { IfOk result (λ s. s.load ≡ load.now) }
    {
        let mut places = Vec::new(alloc);
        for _ in 0..network.nodes() {
            places.push(Vec::new(alloc))?;
        }
        for (place, packet) in load.packets().iter().enumerate() {
            let node = network.flow(packet.flow()).from();
            add_places(&mut places, node, place, packet.count())?;
        }
        Ok(Senders {
            network,
            load,
            places,
        })
    }

    /// The load.
    pub fn load(&self) -> &'n Load
        ensures { result.now ≡ self.now.load }
    {
        self.load
    }

    /// The packet of the node that has so many of its packets before it in the load.
    pub fn packet(&self, node: u16, before: u32) -> Option<&'n LoadPacket>
        requires { node < length self.now.declared.nodes }
        ensures { option_map (λ p. packet_of p.now) result ≡ slice_get (packets_at (network_of self.now.declared) node (packets_of self.now.load)) before }
    {
        match self.places[usize::from(node)].get(before as usize) {
            Some(place) => self.load.packets().get(*place),
            None => None,
        }
    }
}
