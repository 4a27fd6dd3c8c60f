//! Marks by number.
ghost use Rattle.std.specs.Prelude.{◌≡◌};
ghost use Rattle.sw_graph.specs.Rounds.{is_marked};

/// Has the number a mark that is set?
pub(crate) fn is_marked(marks: &[bool], number: u16) -> bool
    ensures { result ≡ is_marked marks.now number }
{
    marks.get(usize::from(number)).copied().unwrap_or(false)
}
