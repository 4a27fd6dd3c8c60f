//! The first refusal of all flows, side by side or one by one.
ghost use Rattle.std.specs.Prelude.{◌≡◌, ◌<◌, length};
ghost use Rattle.std.specs.Thread.{IsSync};
ghost use Rattle.sw_config.specs.Entries.{all_flows};
ghost use Rattle.sw_cert.specs.Refusals.{by_flow, not_rising_along, refusal_of_flow};
ghost use Rattle.sw_cert.specs.Numbered.{refusal_at};

use crate::Certificate;
use crate::closed::closed_refusal;
use crate::refusal::Refusal;
use crate::rising::rising_refusal;
use std::thread::Threads;
use sw_config::Network;
use sw_flow::flows_a_thread;
use sw_graph::{OneByOne, SideBySide, Workers, side_by_side};

/// Who checks the flows of a certificate.
pub trait CheckWorkers: Workers {
    /// The first refusal of a flow, for its start, a faulty place, or a place that follows and is not listed.
    fn refusal_of_flows(&self, network: &Network, certificate: &Certificate) -> Option<Refusal>
        requires shared { IsSync Self.Shared.row }
        requires lists { length certificate.now.places ≡ length (all_flows network.now) }
        ensures { result ≡ by_flow (refusal_of_flow network.now) 0 (all_flows network.now) certificate.now.places };

    /// The first refusal for numbers that do not rise along a flow.
    fn not_rising_along_flows(
        &self,
        network: &Network,
        certificate: &Certificate,
    ) -> Option<Refusal>
        requires shared { IsSync Self.Shared.row }
        requires lists { length certificate.now.places ≡ length (all_flows network.now) }
        ensures { result ≡ by_flow (not_rising_along network.now certificate.now.numbers) 0 (all_flows network.now) certificate.now.places };
}

impl<R: Threads + Sync> CheckWorkers for SideBySide<'_, R> {
    fn refusal_of_flows(&self, network: &Network, certificate: &Certificate) -> Option<Refusal> {
        side_by_side::first_found(
            self.handle(),
            network.flows(),
            flows_a_thread(network),
            |number: u16| -> Option<Refusal>
                requires inside { number < length (all_flows network.now) }
                requires lists { length certificate.now.places ≡ length (all_flows network.now) }
                ensures { result ≡ refusal_at (refusal_of_flow network.entry.now) (all_flows network.entry.now) certificate.entry.now.places number }
            { closed_refusal(network, certificate, number) },
        )
    }

    fn not_rising_along_flows(
        &self,
        network: &Network,
        certificate: &Certificate,
    ) -> Option<Refusal> {
        side_by_side::first_found(
            self.handle(),
            network.flows(),
            flows_a_thread(network),
            |number: u16| -> Option<Refusal>
                requires inside { number < length (all_flows network.now) }
                requires lists { length certificate.now.places ≡ length (all_flows network.now) }
                ensures { result ≡ refusal_at (not_rising_along network.entry.now certificate.entry.now.numbers) (all_flows network.entry.now) certificate.entry.now.places number }
            { rising_refusal(network, certificate, number) },
        )
    }
}

impl CheckWorkers for OneByOne {
    fn refusal_of_flows(&self, network: &Network, certificate: &Certificate) -> Option<Refusal> {
        for number in 0..network.flows() {
            if let Some(refusal) = closed_refusal(network, certificate, number) {
                return Some(refusal);
            }
        }
        None
    }

    fn not_rising_along_flows(
        &self,
        network: &Network,
        certificate: &Certificate,
    ) -> Option<Refusal> {
        for number in 0..network.flows() {
            if let Some(refusal) = rising_refusal(network, certificate, number) {
                return Some(refusal);
            }
        }
        None
    }
}
