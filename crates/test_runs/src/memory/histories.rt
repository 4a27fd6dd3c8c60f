//! Histories of a load.
use crate::memory::steps::{add_parts, text_of};
use crate::moves::Move;
use std::alloc::{AllocError, Global};
use sw_arb::Policy;
use sw_char::End;
use sw_config::Network;
use sw_history::History;
use sw_load::laws::listed_are_declared;
use sw_load::read_load;
use sw_net::{SwitchRoutes, declared_net};

/// A packet of the first flow.
const LOAD: &[u8] = b"packet = [{ flow = 'f0', cargo = 'A0' }]";

type Steps<'n> = History<'n, SwitchRoutes<'n>, Policy>;

/// Whether the load's packet was begun, by a step for which room was made at once or again.
fn is_begun(alloc: Global, history: &mut Steps<'_>) -> bool {
    let _ = history.reserve();
    if history.reserve().is_err() {
        return false;
    }
    match Move::Begin(0, &[0xA0], End::Eop).step(alloc) {
        Ok(step) => history.add(alloc, step).is_ok(),
        Err(_) => false,
    }
}

/// Begins it, at once or again after a refusal that changed nothing, and adds all that the network comes to.
fn add_history(
    alloc: Global,
    history: &mut Steps<'_>,
    text: &mut String,
) -> Result<(), AllocError> {
    let before = text_of(alloc, history.net())?;
    let is_added = is_begun(alloc, history)
        || (text_of(alloc, history.net())? == before && is_begun(alloc, history));
    if !is_added || history.steps(alloc)?.len() != 1 {
        return write!(text, "there are other steps\n");
    }
    add_parts(alloc, history.net(), text)
}

/// Adds all that the network comes to by a history of one step, which begins the packet of a load, which has no fault.
///
/// # Errors
///
/// There is no memory for it, or the load has a fault.
pub fn add_load(alloc: Global, network: &Network, text: &mut String) -> Result<(), AllocError> {
    // Names what holds of a load that was read.
    listed_are_declared();
    let Ok(load) = read_load(alloc, network, LOAD) else {
        return Err(AllocError);
    };
    let mut history = History::new(alloc, declared_net(alloc, network)?, &load)?;
    let added = add_history(alloc, &mut history, text);
    drop(history.into_steps());
    added
}
