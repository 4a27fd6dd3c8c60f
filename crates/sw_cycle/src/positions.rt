//! Where channels stand in a round.
ghost use Rattle.std.specs.Prelude.{◌≡◌, ℕ, ◌<◌, [], All, IfOk, OnOk, length};
ghost use Rattle.sw_graph.specs.Rows.{row};
ghost use Rattle.sw_cycle.specs.Positions.{ArePositions};

use std::alloc::{AllocError, Global};
use sw_topo::Chan;

/// Adds each position to the row of the channel that stands there.
fn add_positions(channels: &[Chan], rows: &mut [Vec<usize>]) -> Result<(), AllocError>
    requires inside { All (λ c. c < length rows.old) channels.now }
    requires empty { (c : ℕ) → row rows.old c ≡ [] }
    ensures { OnOk result (ArePositions channels.now (length channels.now) rows.new) }
{
    for (position, channel) in channels.iter().enumerate() {
        rows[usize::from(channel.number())].push(position)?;
    }
    Ok(())
}

/// For each of so many channels the positions at which it stands in the list.
pub(crate) fn positions_of(
    alloc: Global,
    count: usize,
    channels: &[Chan],
) -> Result<Vec<Vec<usize>>, AllocError>
    requires { All (λ c. c < count) channels.now }
    ensures size { IfOk result (λ v. length v.items ≡ count) }
    ensures positions { IfOk result (λ v. ArePositions channels.now (length channels.now) v.items) }
{
    let mut rows = Vec::new(alloc);
    for _ in 0..count {
        rows.push(Vec::new(alloc))?;
    }
    match add_positions(channels, &mut rows) {
        Ok(()) => Ok(rows),
        Err(error) => Err(error),
    }
}
