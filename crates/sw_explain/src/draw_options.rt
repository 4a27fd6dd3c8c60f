//! What is to be drawn.

use std::marker::Model;

/// What is to be drawn of a network, besides its nodes, switches and channels.
#[derive(Drop)]
pub struct DrawOptions<'a> {
    /// The name of a declared flow, or that of its replies: the channels that its packets go over are bold.
    pub flow: Option<&'a str>,
    /// A shortest cycle of channels that can wait for one another is red, where there is one.
    pub cycle: bool,
    /// Each channel has its number in the certificate, where the network is free.
    pub numbers: bool,
}

impl<'a> Model for DrawOptions<'a> {
    ghost use Rattle.std.specs.Prelude.{option_map};
    ghost use Rattle.sw_explain.specs.Drawings.{Wishes};

    ghost Value = { Wishes };

    ghost view = { λ o. record { flow = option_map (λ s. s.now) o.flow; cycle = o.cycle; numbers = o.numbers } };
}
