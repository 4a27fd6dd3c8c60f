//! In which form a command's answer is told.
ghost use Rattle.std.specs.Prelude.{◌≡◌, ℕ, List, IfOk, Option, option_map};
ghost use Rattle.sw_config.specs.Entries.{Declaration};
ghost use Rattle.sw_text.specs.Ends.{Answers, IsTold};
ghost use Rattle.sw_text.specs.declared.fault.TextFault.{TextFault};

use crate::finding::Finding;
use std::alloc::{AllocError, Global};
use std::io::Write;
use sw_config::Network;
use sw_text::{ByteAnswer, Ended, TextFault};

/// A form in which it is told what a command found, as lines or as one object. `second` are the bytes of the second file of a command of two:
/// none where they are too many, and of a command of one file.
pub trait Form<X: Finding> {
    ghost memory: { List ℕ };

    ghost long: { Self → Option (List ℕ) → Answers };

    ghost faulty: { Self → Option (List ℕ) → List ℕ → TextFault → Answers };

    ghost tells: { Self → Option (List ℕ) → List ℕ → Declaration → X → Answers };

    /// Tells that there was not enough memory. This takes none.
    fn tell_memory<W: Write>(&self, writer: &mut W) -> Ended
        ensures { IsTold (W.contents writer.old) (W.contents writer.new) memory 5 result };

    /// What answers a text that is too long.
    ///
    /// # Errors
    ///
    /// There is no memory for it.
    fn long_answer(&self, alloc: Global, second: Option<&[u8]>) -> Result<ByteAnswer, AllocError>
        ensures { IfOk result (λ answer. long self.now (option_map (λ s. s.now) second.entry) (answer.text.items) answer.status) };

    /// What answers a text that has this fault.
    ///
    /// # Errors
    ///
    /// There is no memory for it.
    fn fault_answer(
        &self,
        alloc: Global,
        second: Option<&[u8]>,
        text: &[u8],
        fault: &TextFault,
    ) -> Result<ByteAnswer, AllocError>
        ensures { IfOk result (λ answer. faulty self.now (option_map (λ s. s.now) second.entry) text.now fault.now (answer.text.items) answer.status) };

    /// What answers the text of a network of which this was found.
    ///
    /// # Errors
    ///
    /// There is no memory for it.
    fn finding_answer(
        &self,
        alloc: Global,
        second: Option<&[u8]>,
        text: &[u8],
        network: &Network,
        found: &X,
    ) -> Result<ByteAnswer, AllocError>
        requires { X.Finding.is_of network.now found.now }
        ensures { IfOk result (λ answer. tells self.now (option_map (λ s. s.now) second.entry) text.now network.now found.now (answer.text.items) answer.status) };

    ghost long_has_status: { (s : Self) (second : Option (List ℕ)) (text : List ℕ) (status : ℕ) → long s second text status → status ≡ 3 };

    ghost fault_has_status: { (s : Self) (second : Option (List ℕ)) (bytes : List ℕ) (fault : TextFault) (text : List ℕ) (status : ℕ) → faulty s second bytes fault text status → status ≡ 3 };

    ghost finding_has_status: { (s : Self) (second : Option (List ℕ)) (bytes : List ℕ) (d : Declaration) (found : X) (text : List ℕ) (status : ℕ) → tells s second bytes d found text status → status ≡ X.Finding.status_of found };
}
