//! How an entry of a routing table is named.
ghost use Rattle.std.specs.Prelude.{◌≡◌, IfOk, string_bytes};
ghost use Rattle.sw_output.specs.EntryTexts.{entry_words};

use std::alloc::{AllocError, Global};
use sw_config::Network;

/// The addresses of the entry of that number of the switch's table, and nothing where there is no such entry.
///
/// # Errors
///
/// There is no memory for them.
pub fn entry_words(
    alloc: Global,
    network: &Network,
    switch: u16,
    entry: usize,
) -> Result<String, AllocError>
    ensures { IfOk result (λ s. string_bytes s ≡ entry_words network.now switch entry) }
{
    if switch >= network.switches() {
        return Ok(String::new(alloc));
    }
    let Some(route) = network.routes(switch).get(entry) else {
        return Ok(String::new(alloc));
    };
    let first = route.first;
    let last = route.last;
    if first == last {
        format!(in alloc; "address {first}")
    } else {
        format!(in alloc; "addresses {first} to {last}")
    }
}
