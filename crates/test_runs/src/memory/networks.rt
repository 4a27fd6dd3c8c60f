//! Networks on which something is done.

use crate::memory::histories::add_load;
use crate::memory::steps::add_commands;
use std::alloc::{AllocError, Global};
use sw_file::read_network;

/// Three switches in a ring, a node at each.
pub const TURN: &[u8] = b"version = 1
node = [{ name = 'N0' }, { name = 'N1' }, { name = 'N2' }]
switch = [{ name = 'S0' }, { name = 'S1' }, { name = 'S2' }]
link = [{ a = 'N0', b = 'S0', b_port = 1, buffer = 8 },
        { a = 'N1', b = 'S1', b_port = 1, buffer = 8 },
        { a = 'N2', b = 'S2', b_port = 1, buffer = 8 },
        { a = 'S0', a_port = 2, b = 'S1', b_port = 3, buffer = 8 },
        { a = 'S1', a_port = 2, b = 'S2', b_port = 3, buffer = 8 },
        { a = 'S2', a_port = 2, b = 'S0', b_port = 3, buffer = 8 }]
flow = [{ name = 'f0', from = 'N0', to = 'N2', address = [2, 2, 1] },
        { name = 'f1', from = 'N1', to = 'N0', address = [2, 2, 1] },
        { name = 'f2', from = 'N2', to = 'N1', address = [3, 1] }]
";

/// A node and an RMAP target.
pub const RMAP: &[u8] = b"version = 2
node = [{ name = 'I' },
        { name = 'T', target = { logical = 254, start = 2684354560, size = 64, slots = 2 } }]
link = [{ a = 'I', b = 'T' }]
flow = [{ name = 'w', from = 'I', to = 'T', reply = { initiator = 103 } }]
";

/// What is done on a network.
#[derive(Clone, Copy)]
pub enum Work {
    /// A step of a history of a load.
    Load,
    /// Steps of its core.
    Commands,
}

/// Adds what comes of the work on the network of a file, which has no fault.
///
/// # Errors
///
/// There is no memory for it, or the file has a fault.
pub fn add_of_file(
    alloc: Global,
    file: &[u8],
    work: Work,
    text: &mut String,
) -> Result<(), AllocError> {
    match read_network(alloc, file) {
        Ok(network) => {
            let added = match work {
                Work::Load => add_load(alloc, &network, text),
                Work::Commands => add_commands(alloc, &network, text),
            };
            network.discard();
            added
        }
        Err(_) => Err(AllocError),
    }
}
