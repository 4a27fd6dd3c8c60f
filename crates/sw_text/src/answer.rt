//! Answers of an engine.
ghost use Rattle.std.specs.Prelude.{◌≡◌, ◌∷◌, [], IfOk, codes, string_bytes};
ghost use Rattle.sw_text.specs.FaultTexts.{fault_text};
ghost use Rattle.sw_text.specs.Lines.{line};

use crate::TextFault;
use crate::fault_texts::fault_text;
use crate::statuses::FAULTY;
use std::alloc::{AllocError, Global};

/// What an engine writes, and the status that says what it is.
#[derive(Drop)]
pub struct Answer {
    /// What is written to standard output.
    pub text: String,
    /// As in `statuses`.
    pub status: u8,
}

/// The same, where the text is at hand as bytes.
#[derive(Drop)]
pub struct ByteAnswer {
    /// What is written to standard output, whatever bytes it has.
    pub text: Vec<u8>,
    /// As in `statuses`.
    pub status: u8,
}

impl Answer {
    ghost use Rattle.sw_text.specs.Ends.{Says};

    /// The answer to a text that has a fault.
    ///
    /// # Errors
    ///
    /// There is no memory for the text.
    pub fn of_fault(alloc: Global, fault: &TextFault) -> Result<Answer, AllocError>
        ensures { IfOk result (λ a. Says (line (fault_text fault.now ∷ [])) 3 (string_bytes a.text) a.status) }
    {
        let fault = fault_text(alloc, fault)?;
        let text = format!(in alloc; "{fault}\n")?;
        Ok(Answer {
            text,
            status: FAULTY,
        })
    }

    /// The answer to a text that is too long.
    ///
    /// # Errors
    ///
    /// There is no memory for the text.
    pub fn of_long_text(alloc: Global) -> Result<Answer, AllocError>
        ensures { IfOk result (λ a. Says (line (codes "fault A1 TooLong" ∷ [])) 3 (string_bytes a.text) a.status) }
    {
        let text = String::from_str(alloc, "fault A1 TooLong\n")?;
        Ok(Answer {
            text,
            status: FAULTY,
        })
    }

    /// The bytes of the text, with the status.
    pub fn into_bytes(self) -> ByteAnswer
        ensures text { result.text.items ≡ string_bytes self.text }
        ensures status { result.status ≡ self.status }
    {
        ByteAnswer {
            text: self.text.into_bytes(),
            status: self.status,
        }
    }
}
