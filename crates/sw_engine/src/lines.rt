//! Answers as lines of text.
ghost use Rattle.std.specs.Prelude.{◌≡◌, ◌∷◌, [], ℕ, List, IfOk, codes};
ghost use Rattle.sw_config.specs.Entries.{Declaration};
ghost use Rattle.sw_engine.specs.LineAnswers.{memory_line};
ghost use Rattle.sw_text.specs.Ends.{Says};
ghost use Rattle.sw_text.specs.FaultTexts.{fault_text};
ghost use Rattle.sw_text.specs.Lines.{line};

use crate::finding::Finding;
use crate::form::Form;
use std::alloc::{AllocError, Global};
use std::io::Write;
use sw_config::Network;
use sw_text::{Answer, ByteAnswer, Ended, TextFault, tell_memory};

/// What was found of a network, where it can be told as lines.
pub trait AsLines: Finding {
    ghost lines_of: { Declaration → Self → List ℕ };

    /// The lines, each with its end.
    ///
    /// # Errors
    ///
    /// There is no memory for them.
    fn lines(&self, alloc: Global, network: &Network) -> Result<Vec<u8>, AllocError>
        requires { Self.Finding.is_of network.now self.now }
        ensures { IfOk result (λ text. text.items ≡ lines_of network.now self.now) };
}

/// The form of answers that are lines of text.
#[derive(Clone, Copy)]
pub struct Lines;

impl<X: AsLines> Form<X> for Lines {
    ghost memory = { memory_line };

    ghost long = { λ _ _. Says (line (codes "fault A1 TooLong" ∷ [])) 3 };

    ghost faulty = { λ _ _ _ fault. Says (line (fault_text fault ∷ [])) 3 };

    ghost tells = { λ _ _ _ d found. Says (X.lines_of d found) (X.Finding.status_of found) };

    ghost long_has_status = { λ _ _ _ _ says. says.1 };

    ghost fault_has_status = { λ _ _ _ _ _ _ says. says.1 };

    ghost finding_has_status = { λ _ _ _ _ _ _ _ says. says.1 };

    fn tell_memory<W: Write>(&self, writer: &mut W) -> Ended {
        tell_memory(writer)
    }

    fn long_answer(&self, alloc: Global, _second: Option<&[u8]>) -> Result<ByteAnswer, AllocError> {
        Ok(Answer::of_long_text(alloc)?.into_bytes())
    }

    fn fault_answer(
        &self,
        alloc: Global,
        _second: Option<&[u8]>,
        _text: &[u8],
        fault: &TextFault,
    ) -> Result<ByteAnswer, AllocError> {
        Ok(Answer::of_fault(alloc, fault)?.into_bytes())
    }

    fn finding_answer(
        &self,
        alloc: Global,
        _second: Option<&[u8]>,
        _text: &[u8],
        network: &Network,
        found: &X,
    ) -> Result<ByteAnswer, AllocError> {
        let text = found.lines(alloc, network)?;
        let status = found.status();
        Ok(ByteAnswer { text, status })
    }
}
