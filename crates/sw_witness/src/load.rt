//! What packets carry.

use crate::command::add_command;
use std::alloc::{AllocError, Global};
use sw_config::Network;

/// What the packets of a flow carry that are to be sent.
#[derive(Clone, Copy)]
pub(crate) struct Load {
    /// The flow's number.
    pub(crate) flow: u16,
    /// Whether they are commands.
    pub(crate) is_command: bool,
    /// How long their cargo is at least: zeros make it so long.
    pub(crate) length: usize,
}

impl Load {
    /// The cargo of one of the packets; and its transaction identifier, if it is a command of which that is chosen: the one that is given.
    pub(crate) fn cargo(
        self,
        alloc: Global,
        network: &Network,
        identifier: Option<u16>,
    ) -> Result<(Vec<u8>, Option<u16>), AllocError> {
        let mut cargo = Vec::new(alloc);
        let mut chosen = None;
        if self.is_command && self.flow < network.flows() {
            let number = identifier.unwrap_or(0);
            if add_command(alloc, network, self.flow, number, &mut cargo)? {
                chosen = identifier;
            }
        }
        if cargo.len() < self.length {
            cargo.resize(self.length, 0)?;
        }
        Ok((cargo, chosen))
    }
}
