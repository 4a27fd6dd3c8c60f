//! What every routing table keeps.
ghost use Rattle.std.specs.Prelude.{◌≡◌, ℕ, ◌<◌};
ghost use Rattle.sw_route.specs.Looks.{path_look, no_look};
ghost use Rattle.sw_route.specs.declared.look.Look.{Look};

use crate::look::Look;
use either::Either;

/// Answers for each byte what it names at a switch (ECSS-E-ST-50-12C, network layer: packet addressing). The answer depends on
/// the value and the byte alone.
pub trait Routing {
    ghost answer: { Self → ℕ → Look };

    /// What the byte names.
    fn look(&self, byte: u8) -> Look
        ensures { result ≡ answer self.now byte };

    ghost path: { (r : Self) (byte : ℕ) → byte < 32 → answer r byte ≡ path_look byte };

    ghost reserved: { (r : Self) → answer r 255 ≡ no_look };
}

impl<A: Routing, B: Routing> Routing for Either<A, B> {
    ghost use Rattle.either.specs.Either.{either};

    ghost answer = { λ e byte. either (λ a. A.answer a byte) (λ b. B.answer b byte) e };

    fn look(&self, byte: u8) -> Look {
        match self {
            Either::Left(a) => a.look(byte),
            Either::Right(b) => b.look(byte),
        }
    }

    ghost use Rattle.sw_route.specs.Laws.{either_path, either_reserved};

    ghost path = { either_path A.answer B.answer A.path B.path };

    ghost reserved = { either_reserved A.answer B.answer A.reserved B.reserved };
}
