//! Answers as one object of JSON.
ghost use Rattle.std.specs.Prelude.{◌≡◌, ℕ, List, IfOk, IsOkAnd, None, Option, Some, option_map};
ghost use Rattle.serde_json.specs.Data.{Data};
ghost use Rattle.serde_json.specs.View.{view};
ghost use Rattle.sw_config.specs.Entries.{Declaration};
ghost use Rattle.sw_json.specs.Answering.{IsAnswer, IsCommandOutcome, IsFaultyFile, IsLongFile, Results, memory_text};
ghost use Rattle.sw_json.specs.ObjectAnswers.{file_values, second_path};

use crate::answering::{answer_to_files, faulty_file, long_file, tell_memory};
use crate::command_outcome::CommandOutcome;
use crate::files::Release;
use std::alloc::{AllocError, Global};
use std::io::Write;
use sw_config::Network;
use sw_engine::{Finding, Form};
use sw_text::{ByteAnswer, Ended, TextFault};

/// The second file of a command.
#[derive(Clone, Copy)]
pub struct SecondFile<'a> {
    /// Its path, as it was given; empty of a command of one file.
    pub path: &'a str,
    /// Its bytes, if they are not too many.
    pub text: Option<&'a [u8]>,
}

/// How what a command finds of a network, alone or with a second file, is told as a value of JSON.
pub trait Values<X: Finding> {
    ghost command: { List ℕ };

    ghost results_of: { List ℕ → List ℕ → Option (List ℕ) → Declaration → X → Results };

    /// The name of the command.
    fn command(&self) -> &'static str
        ensures { result.now ≡ command };

    /// The value, with the status. `path` is the network file's.
    ///
    /// # Errors
    ///
    /// There is no memory for it.
    fn outcome(
        &self,
        alloc: Global,
        path: &str,
        second: SecondFile<'_>,
        network: &Network,
        found: &X,
    ) -> Result<CommandOutcome, AllocError>
        requires { X.Finding.is_of network.now found.now }
        ensures { IfOk result (λ o. results_of path.now second.entry.path.now (option_map (λ s. s.now) second.entry.text) network.now found.now (view o.result) o.status) };

    ghost result_has_status: { (path other : List ℕ) (second : Option (List ℕ)) (d : Declaration) (found : X) (value : Data) (status : ℕ) → results_of path other second d found value status → status ≡ X.Finding.status_of found };
}

/// The form of answers that are one object of JSON, which tells of the files of a command by their paths.
#[derive(Clone, Copy)]
pub struct ObjectForm<'a, V> {
    /// How what is found is told.
    pub values: V,
    /// The network file's path, as it was given. It is not opened.
    pub path: &'a str,
    /// The second file's path, of a command of two.
    pub second: Option<&'a str>,
    /// Which release of the program answers.
    pub release: Release<'a>,
}

impl<V> ObjectForm<'_, V> {
    /// The second file, of these bytes.
    pub fn second_file<'b>(&'b self, text: Option<&'b [u8]>) -> SecondFile<'b>
        ensures path { result.path.now ≡ second_path self.entry.now.second }
        ensures text { result.text ≡ text.entry }
    {
        let path = match self.second {
            Some(path) => path,
            None => "",
        };
        SecondFile { path, text }
    }

    /// The answer of the command with what it found, by the bytes of the files.
    ///
    /// # Errors
    ///
    /// There is no memory for it, or there was none for what was to be found.
    pub fn answer(
        &self,
        alloc: Global,
        command: &str,
        text: Option<&[u8]>,
        second: Option<&[u8]>,
        found: Result<CommandOutcome, AllocError>,
    ) -> Result<ByteAnswer, AllocError>
        ensures { IfOk result (λ a. IsOkAnd found (λ o. IsAnswer command.now (file_values self.now.path.now self.now.second (option_map (λ s. s.now) text.entry) (option_map (λ s. s.now) second.entry)) self.now.release (IsCommandOutcome (view o.result) o.status) a.text.items a.status)) }
    {
        let first = (self.path, text);
        let answer = match self.second {
            None => answer_to_files(alloc, command, self.release, &[first], found)?,
            Some(path) => {
                let files = [first, (path, second)];
                answer_to_files(alloc, command, self.release, &files, found)?
            }
        };
        Ok(answer.into_bytes())
    }
}

impl<X: Finding, V: Values<X>> Form<X> for ObjectForm<'_, V> {
    ghost use Rattle.sw_json.specs.ObjectAnswers.{fault_has_status, long_has_status, result_has_status};

    ghost memory = { memory_text };

    ghost long = { λ s second. IsAnswer V.command (file_values s.path.now s.second None second) s.release (IsLongFile s.path.now) };

    ghost faulty = { λ s second text fault. IsAnswer V.command (file_values s.path.now s.second (Some text) second) s.release (IsFaultyFile s.path.now text fault) };

    ghost tells = { λ s second text d found. IsAnswer V.command (file_values s.path.now s.second (Some text) second) s.release (V.results_of s.path.now (second_path s.second) second d found) };

    ghost long_has_status = { λ s second. long_has_status V.command (file_values s.path.now s.second None second) s.release s.path.now };

    ghost fault_has_status = { λ s second text fault. fault_has_status V.command (file_values s.path.now s.second (Some text) second) s.release s.path.now text fault };

    ghost finding_has_status = { λ s second text d found. result_has_status V.command (file_values s.path.now s.second (Some text) second) s.release (V.results_of s.path.now (second_path s.second) second d found) (X.Finding.status_of found) (V.result_has_status s.path.now (second_path s.second) second d found) };

    fn tell_memory<W: Write>(&self, writer: &mut W) -> Ended {
        tell_memory(writer)
    }

    fn long_answer(&self, alloc: Global, second: Option<&[u8]>) -> Result<ByteAnswer, AllocError> {
        let found = long_file(alloc, self.path);
        self.answer(alloc, self.values.command(), None, second, found)
    }

    fn fault_answer(
        &self,
        alloc: Global,
        second: Option<&[u8]>,
        text: &[u8],
        fault: &TextFault,
    ) -> Result<ByteAnswer, AllocError> {
        let found = faulty_file(alloc, self.path, text, fault);
        self.answer(alloc, self.values.command(), Some(text), second, found)
    }

    fn finding_answer(
        &self,
        alloc: Global,
        second: Option<&[u8]>,
        text: &[u8],
        network: &Network,
        found: &X,
    ) -> Result<ByteAnswer, AllocError> {
        let found = self
            .values
            .outcome(alloc, self.path, self.second_file(second), network, found);
        self.answer(alloc, self.values.command(), Some(text), second, found)
    }
}
