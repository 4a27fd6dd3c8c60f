//! What opens files by their paths.
ghost use Rattle.std.specs.Prelude.{◌≡◌, ℕ, List, IfOk, IfSome, Option, true};
ghost use Rattle.sw_engine.specs.Paths.{ReadsTo, WritesTo};
ghost use Rattle.sw_text.specs.Inputs.{given};

use std::alloc::Global;
use std::io::{Read, Write};
use sw_text::{InputError, InputText, read_one, write_whole};

/// What opens files by their paths. Several threads may ask it at once.
pub trait FileSystem {
    /// What a file is read by.
    type Reader: Read + Drop;

    /// What a file is written by.
    type Writer: Write + Drop;

    /// What a path gives: all the bytes of its file, or `None` where they are more than a text may have.
    ghost gives: { Self → List ℕ → Option (List ℕ) → Type 0 };

    /// Which texts were put, whole, into the file that was made for a path.
    ghost keeps: { Self → List ℕ → List ℕ → Type 0 };

    /// Opens the file of a path, from its beginning, if it can be opened. What it is read by gives what the path gives.
    fn open(&self, path: &str) -> Option<Self::Reader>
        ensures { IfSome result (λ reader. ReadsTo (Self.Reader.remaining reader) (gives self.now path.now)) };

    /// Makes the file of a path, or empties it, if it can be. What it is written by puts all that it gets into the file.
    fn create(&self, path: &str) -> Option<Self::Writer>
        ensures { IfSome result (λ writer. WritesTo (Self.Writer.contents writer) (keeps self.now path.now)) };
}

/// Reads the file of a path.
///
/// # Errors
///
/// `Failed`: it can't be opened, or a read failed. `Memory`: there is no memory for its text.
pub fn read_path<F: FileSystem>(
    alloc: Global,
    files: &F,
    path: &str,
) -> Result<InputText, InputError>
    ensures { IfOk result (λ input. F.gives files.now path.now (given input)) }
{
    match files.open(path) {
        Some(mut reader) => read_one(alloc, &mut reader),
        None => Err(InputError::Failed),
    }
}

/// Puts a text into the file of a path, which is made, or emptied. It answers whether all of the text was written.
pub fn keep_text<F: FileSystem>(files: &F, path: &str, text: &[u8]) -> bool
    ensures { result ≡ true → F.keeps files.now path.now text.now }
{
    match files.create(path) {
        Some(mut writer) => write_whole(text, &mut writer).is_ok(),
        None => false,
    }
}
