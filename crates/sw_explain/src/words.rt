//! Numbers in words.
ghost use Rattle.std.specs.Prelude.{◌≡◌};
ghost use Rattle.sw_explain.specs.ExplainTexts.{ending};

/// What ends a noun that counts so many.
pub fn ending(count: usize) -> &'static str
    ensures { result.now ≡ ending count }
{
    if count == 1 { "" } else { "s" }
}
