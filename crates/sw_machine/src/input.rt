//! What a switch does with the packets of one input.

/// The state of a switch's input port (ECSS-E-ST-50-12C, network layer: wormhole routing).
#[derive(Clone, Copy, PartialEq, Eq)]
pub enum InputState {
    /// It waits for a packet's header.
    Idle,
    /// It passes a packet on to the channel of this number.
    Held(u16),
    /// It discards a packet whose header names no port.
    Spilling,
}
