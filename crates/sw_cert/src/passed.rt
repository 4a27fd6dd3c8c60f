//! Networks with an accepted certificate.

use crate::Certificate;
use std::marker::Model;
use sw_config::Network;

/// A network for which some certificate was accepted: whoever holds one has the theorem for the network that it borrows.
#[derive(Drop)]
pub struct Passed<'a> {
    network: &'a Network,
}

impl<'a> Model for Passed<'a> {
    ghost use Rattle.sw_config.specs.Entries.{Declaration};
    ghost use Rattle.sw_machine.specs.Certificate.{Certificate, IsAccepted};
    ghost use Rattle.sw_machine.specs.Model.{network_of};

    ghost Value = { Declaration };

    ghost view = { λ p. p.network.now };

    ghost invariant = { λ p. (certificate : Certificate) × IsAccepted (network_of p.network.now) certificate };
}

impl<'a> Passed<'a> {
    ghost use Rattle.std.specs.Prelude.{◌≡◌};
    ghost use Rattle.sw_machine.specs.Certificate.{IsAccepted};
    ghost use Rattle.sw_machine.specs.DeadlockFreedom.{IsFree};
    ghost use Rattle.sw_machine.specs.Model.{network_of};
    ghost use Rattle.sw_cert.specs.Contents.{certificate_of};
    ghost use Rattle.sw_machine.specs.Certificate as machine;

    pub(crate) fn new(network: &'a Network, certificate: &Certificate) -> Passed<'a>
        requires { IsAccepted (network_of network.now) (certificate_of certificate.now) }
        ensures { result ≡ network.entry.now }
    {
        Passed { network }
    }

    /// The network.
    pub fn network(&self) -> &'a Network
        ensures { result.now ≡ self.now }
    {
        self.network
    }

    /// Some certificate is accepted for the network, and so it can't lock up: all that the certificate shows of it, over every run that
    /// keeps the limits on unanswered commands, and over every run where no node has a limit.
    pub fn is_deadlock_free(&self)
        ensures { (certificate : machine.Certificate) × IsAccepted (network_of self.now) certificate × IsFree (network_of self.now) certificate }
    {
        // Names the network, which is valid by its type.
        let _flows = self.network.flows();
    }
}
