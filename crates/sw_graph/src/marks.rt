//! Which members are done.
ghost use Rattle.std.specs.Prelude.{◌≡◌};
ghost use Rattle.sw_graph.specs.Rounds.{is_marked};

/// Whether the member is marked as done.
pub fn is_marked(done: &[bool], c: u16) -> bool
    ensures { result ≡ is_marked done.now c }
{
    done.get(usize::from(c)).copied().unwrap_or(false)
}
