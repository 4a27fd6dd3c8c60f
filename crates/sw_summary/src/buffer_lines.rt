//! The lines of fills.
ghost use Rattle.std.specs.Prelude.{◌≡◌, ◌*◌, IfOk, length, string_bytes};
ghost use Rattle.sw_summary.specs.BufferLines.{fill_lines};

use std::alloc::{AllocError, Global};
use std::fmt::Write;
use sw_config::Network;
use sw_output::channel_text;
use sw_topo::Chan;

/// A line for each channel whose buffer ever held a character.
///
/// # Errors
///
/// There is no memory for the text.
pub fn fill_lines(alloc: Global, network: &Network, fills: &[u16]) -> Result<String, AllocError>
    requires { length fills.now ≡ 2 * length network.now.links }
    ensures { IfOk result (λ s. string_bytes s ≡ fill_lines network.now fills.now) }
{
    let mut text = String::new(alloc);
    for c in 0..network.channels() {
        let fill = fills[usize::from(c)];
        if fill == 0 {
            continue;
        }
        let channel = Chan::new(c);
        let name = channel_text(alloc, network, channel)?;
        let capacity = network.capacity(channel);
        write!(text, "buffer {name}: greatest fill {fill} of {capacity}\n")?;
    }
    Ok(text)
}
