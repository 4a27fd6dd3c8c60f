//! What single words of a schedule's line name.
ghost use Rattle.std.specs.Prelude.{◌≡◌, ◌<◌, ◌*◌, length, map};
ghost use Rattle.std.specs.Str.{bytes_eq};
ghost use Rattle.sw_schedule.specs.Lines.{channel_of, flow_of, node_of};

use std::str;
use sw_config::Network;
use sw_text::number;
use sw_topo::Chan;
use sw_topo::limits::MAX_NUMBER;

/// How often a line of a schedule may have its step.
pub const MAX_COUNT: u32 = 100_000;

/// Whether the word is that one.
pub(crate) fn is_word(word: &[u8], other: &[u8]) -> bool
    ensures { result ≡ bytes_eq word.now other.now }
{
    word == other
}

/// The channel of that number, if the network has one.
pub(crate) fn channel_of(network: &Network, word: &[u8]) -> Option<Chan>
    ensures { result ≡ channel_of network.now word.now }
{
    let Some(number) = number(word, MAX_NUMBER) else {
        return None;
    };
    let number = number as u16;
    if number < network.channels() {
        Some(Chan::new(number))
    } else {
        None
    }
}

/// The node of that name.
pub(crate) fn node_of(network: &Network, word: &[u8]) -> Option<u16>
    ensures { result ≡ node_of network.now word.now }
{
    match str::from_utf8(word) {
        Ok(name) => network.node_named(name),
        Err(_) => None,
    }
}

/// The declared flow of that name.
pub(crate) fn flow_of(network: &Network, word: &[u8]) -> Option<u16>
    ensures { result ≡ flow_of network.now word.now }
{
    let Ok(name) = str::from_utf8(word) else {
        return None;
    };
    match network.flow_named(name) {
        Some(flow) => {
            if flow < network.declared_flows() {
                Some(flow)
            } else {
                None
            }
        }
        None => None,
    }
}
