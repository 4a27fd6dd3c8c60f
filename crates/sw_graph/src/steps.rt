//! Steps between numbers.
ghost use Rattle.std.specs.Prelude.{◌≡◌, ◌<◌, ◌++◌, ℕ, List, OnOk};

use std::alloc::AllocError;

/// Steps from numbers below a bound, as a list of the numbers that they lead to.
pub trait Steps {
    // The numbers are those below it.
    ghost bound: { Self → ℕ };

    // The numbers that a step from a number leads to.
    ghost next: { Self → ℕ → List ℕ };

    /// Adds the numbers that a step from this one leads to, in order.
    ///
    /// # Errors
    ///
    /// There is no memory for all of them: some may have been added then.
    fn push_next(&self, number: usize, to: &mut Vec<usize>) -> Result<(), AllocError>
        requires { number < bound self.now }
        ensures { OnOk result (to.new.items ≡ to.old.items ++ next self.now number) };
}
