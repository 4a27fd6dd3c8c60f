//! Sample networks.
ghost use Rattle.std.specs.Prelude.{◌≡◌, option_map};
ghost use Rattle.sw_app.specs.Samples.{sample_named, sample_text};

mod bus;
mod housekeeping;
mod limits;
mod regions;
mod ring;

use bus::BUS;
use housekeeping::HOUSEKEEPING;
use limits::LIMITS;
use regions::REGIONS;
use ring::RING;

/// A sample network, to begin a network file from.
#[derive(Clone, Copy)]
pub enum Sample {
    /// An instrument bus with nominal and redundant routers.
    Bus,
    /// A ring of boards.
    Ring,
    /// A housekeeping unit, and what it polls.
    Housekeeping,
    /// Units in three regions, by regional addresses.
    Regions,
    /// An instrument bus whose units limit how many of their commands are unanswered.
    Limits,
}

/// The sample of that name: `bus`, as where none is given, `ring`, `housekeeping`, `regions` or `limits`. There is no sixth.
pub fn sample_named(name: Option<&str>) -> Option<Sample>
    ensures { result ≡ sample_named (option_map (λ s. s.now) name.entry) }
{
    let Some(word) = name else {
        return Some(Sample::Bus);
    };
    if word == "bus" {
        return Some(Sample::Bus);
    }
    if word == "ring" {
        return Some(Sample::Ring);
    }
    if word == "housekeeping" {
        return Some(Sample::Housekeeping);
    }
    if word == "regions" {
        return Some(Sample::Regions);
    }
    if word == "limits" {
        return Some(Sample::Limits);
    }
    None
}

/// The network file of a sample.
pub(crate) fn sample_text(sample: Sample) -> &'static str
    ensures { result.now ≡ sample_text sample }
{
    match sample {
        Sample::Bus => BUS,
        Sample::Ring => RING,
        Sample::Housekeeping => HOUSEKEEPING,
        Sample::Regions => REGIONS,
        Sample::Limits => LIMITS,
    }
}
