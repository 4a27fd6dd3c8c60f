//! The hint of a certificate that is refused for a network.
ghost use Rattle.std.specs.Prelude.{◌≤◌, length};

use crate::teller::{Teller, Text};
use std::alloc::{AllocError, Global};
use sw_cert::{Certificate, Refusal, number_of};
use sw_config::{Flow, Network};
use sw_faults::Hint;
use sw_flow::{Place, RouteFault, flow_start, followers_in};
use sw_output::flow_name;
use sw_topo::Chan;

/// What was found, and what is expected in its place.
type Told = Result<(String, String), AllocError>;

/// A certificate that is refused for a network.
#[derive(Clone, Copy)]
struct Refused<'a> {
    teller: Teller<'a>,
    certificate: &'a Certificate,
}

impl<'a> Refused<'a> {
    /// Of a flow that there is not, nothing is told.
    fn nothing(self) -> Told {
        Ok((self.teller.text("")?, self.teller.text("")?))
    }

    /// What the certificate lists for the flow of that number.
    fn listed_places(self, number: u16) -> &'a [Place] {
        if (number as usize) < self.certificate.flows() {
            self.certificate.places(number)
        } else {
            &[]
        }
    }

    /// A place of a flow, as a certificate lists it.
    fn place(self, place: &Place, flow: &str) -> Text {
        let channel = place.channel.number();
        let deleted = place.deleted;
        format!(in self.teller.alloc; "place {channel} {deleted} of flow {flow}")
    }

    /// Counts that are not the network's, or else the first place that the network can't have.
    fn counts(self) -> Told {
        let Teller { alloc, network } = self.teller;
        let (channels, flows) = (network.channels(), network.flows());
        let (numbers, parts) = (self.certificate.numbers().len(), self.certificate.flows());
        if numbers != channels as usize || parts != flows as usize {
            let found = format!(in alloc; "{numbers} channels and {parts} flows")?;
            return Ok((
                found,
                format!(in alloc; "{channels} channels and {flows} flows")?,
            ));
        }
        for number in 0..flows {
            let flow = network.flow(number);
            let bytes = flow.address().len();
            for place in self.listed_places(number) {
                if place.channel.number() >= channels || place.deleted as usize > bytes {
                    return Ok((
                        self.place(place, flow.name())?,
                        format!(in alloc;
                            "a channel below {channels}, and at most {bytes} deleted bytes"
                        )?,
                    ));
                }
            }
        }
        self.nothing()
    }

    /// The start of a flow, which is not listed.
    fn start(self, number: u16) -> Told {
        let Teller { alloc, network } = self.teller;
        if number >= network.flows() {
            return self.nothing();
        }
        let flow = network.flow(number);
        let start = self.place(&flow_start(network, flow), flow.name())?;
        Ok((
            self.teller.text("")?,
            format!(in alloc; "{start}, where it starts")?,
        ))
    }

    /// A place, and the first one that follows it and is not listed.
    fn missing_place(self, number: u16, place: &Place) -> Told {
        let Teller { alloc, network } = self.teller;
        if number >= network.flows() {
            return self.nothing();
        }
        let flow = network.flow(number);
        for next in followers_in(network, flow, *place) {
            if !self.listed_places(number).contains(&next) {
                let next = self.place(&next, flow.name())?;
                let found = self.place(place, flow.name())?;
                return Ok((found, format!(in alloc; "{next}, which follows it")?));
            }
        }
        self.nothing()
    }

    /// A place with a fault.
    fn faulty_place(self, number: u16, place: &Place, fault: RouteFault) -> Told {
        let Teller { alloc, network } = self.teller;
        let listed = self.place(place, flow_name(network, number))?;
        let found = self.teller.fault_text(place, fault)?;
        let expected = self
            .teller
            .text("only places of the flow, and none with a fault")?;
        Ok((format!(in alloc; "{listed}, {found}")?, expected))
    }

    /// Does the flow go on from a place on the one channel, which is listed for it, to the other?
    fn goes_on(self, flow: &Flow, listed: &[Place], from: Chan, to: Chan) -> bool
        requires { length flow.now.address ≤ 32 }
    {
        for place in listed {
            for next in followers_in(self.teller.network, flow, *place) {
                if place.channel == from && next.channel == to {
                    return true;
                }
            }
        }
        false
    }

    /// Why the one channel waits for the other: by the first flow that goes on to it, or by a
    /// target.
    fn cause(self, from: Chan, to: Chan) -> Text {
        let Teller { alloc, network } = self.teller;
        for number in 0..network.flows() {
            let flow = network.flow(number);
            if self.goes_on(flow, self.listed_places(number), from, to) {
                return format!(in alloc; "to which flow {} goes on", flow.name());
            }
        }
        self.teller.text("on which its target answers")
    }

    /// The number of a channel, and which channel it is.
    fn number(self, channel: Chan) -> Text {
        let number = number_of(self.certificate.numbers(), channel);
        let at = channel.number();
        let ends = self.teller.channel(Some(channel))?;
        format!(in self.teller.alloc; "number {number} at channel {at} {ends}")
    }

    /// Two channels, the second of which waits for the first and has no greater number.
    fn numbers(self, channel: Chan, next: Chan) -> Told {
        let alloc = self.teller.alloc;
        let (first, second) = (self.number(channel)?, self.number(next)?);
        let cause = self.cause(channel, next)?;
        let found = format!(in alloc; "{first}, and {second}, {cause}")?;
        let least = number_of(self.certificate.numbers(), channel);
        let at = next.number();
        Ok((
            found,
            format!(in alloc; "a number above {least} at channel {at}")?,
        ))
    }

    fn tell(self, refusal: Refusal) -> Told {
        match refusal {
            Refusal::WrongCount => self.counts(),
            Refusal::NoStart(flow) => self.start(flow),
            Refusal::NotClosed(flow, place) => self.missing_place(flow, &place),
            Refusal::NotRising(channel, next) => self.numbers(channel, next),
            Refusal::Faulty(flow, place, fault) => self.faulty_place(flow, &place, fault),
        }
    }
}

/// The hint of a certificate that is refused for the network of the file of this name.
///
/// # Errors
///
/// There is no memory for the hint.
pub fn refused_certificate_hint(
    alloc: Global,
    network: &Network,
    file: &str,
    certificate: &Certificate,
    refusal: Refusal,
) -> Result<Hint, AllocError> {
    let teller = Teller { alloc, network };
    let what = format!(in alloc; "the certificate is refused for {file}")?;
    let (found, expected) = Refused {
        teller,
        certificate,
    }
    .tell(refusal)?;
    Ok(Hint {
        found,
        expected,
        help: format!(in alloc; "swcheck decide {file} prints a certificate if there is one")?,
        ..Hint::new(alloc, what)
    })
}
