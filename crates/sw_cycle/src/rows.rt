//! The rows of the table of dependencies.
ghost use Rattle.std.specs.Prelude.{◌≡◌, ◌<◌, IfOk, length, slice_get};
ghost use Rattle.sw_topo.specs.Wiring.{partner};
ghost use Rattle.sw_cycle.specs.Rows.{row_at_end};

use crate::marks::is_marked;
use std::alloc::{AllocError, Global};
use sw_topo::{Chan, PlaceEnd, PortSet, Topology};

/// The channels on which packets on the channel may wait, where these are the ports that are named
/// at its end.
pub(crate) fn row_of(
    alloc: Global,
    topology: &Topology,
    channel: Chan,
    ports: PortSet,
    marks: &[bool],
) -> Result<Vec<u16>, AllocError>
    requires { channel < length topology.now.ends }
    ensures { IfOk result (λ v. v.items ≡ row_at_end topology.now.ends ports marks.now (slice_get topology.now.ends (partner channel))) }
{
    let mut row = Vec::new(alloc);
    match topology.end_of(channel) {
        PlaceEnd::Switch(switch, _) => {
            for port in ports.ports() {
                if let Some(next) = topology.out_of(switch, port) {
                    row.push(next.number())?;
                }
            }
            Ok(row)
        }
        PlaceEnd::Node(node) => {
            if is_marked(marks, node) {
                row.push(topology.out(node).number())?;
            }
            Ok(row)
        }
    }
}
