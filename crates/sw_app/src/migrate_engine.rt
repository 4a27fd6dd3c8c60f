//! The engine of `migrate`.
ghost use Rattle.std.specs.Prelude.{◌≡◌, ◌∷◌, [], Err, IfOk, IfSome, codes};
ghost use Rattle.sw_app.specs.MigrateAnswers.{IsMigrateAnswer};
ghost use Rattle.sw_file.specs.Network.{network_text};
ghost use Rattle.sw_output.specs.Lines.{line};
ghost use Rattle.sw_text.specs.Ends.{EndsBy, Says};
ghost use Rattle.sw_text.specs.FaultTexts.{fault_text};

use std::alloc::{AllocError, Global};
use std::io::{Read, Write};
use sw_file::MigrateFault;
use sw_text::statuses::{FAULTY, GOOD};
use sw_text::{
    Answer, ByteAnswer, Ended, MAX_TEXT, OrMemory, TextFault, read_whole, tell_answer, tell_unread,
};

/// A text that declares no network.
#[derive(Drop)]
pub struct FaultyText {
    /// All its bytes.
    pub text: Vec<u8>,
    /// Its first fault.
    pub fault: TextFault,
}

/// How `migrate` ended, with the text that it read, if that declares no network.
#[derive(Drop)]
pub struct MigrateEnd {
    pub ended: Ended,
    pub faulty: Option<FaultyText>,
}

impl MigrateEnd {
    ghost use Rattle.std.specs.Prelude.{None};

    /// The end of a call that has no such text.
    pub fn from_ended(ended: Ended) -> MigrateEnd
        ensures ended { result.ended ≡ ended }
        ensures faulty { result.faulty ≡ None }
    {
        MigrateEnd {
            ended,
            faulty: None,
        }
    }
}

/// The answer to a text with this fault.
fn fault_answer(alloc: Global, fault: &TextFault) -> Result<ByteAnswer, AllocError>
    ensures { IfOk result (λ a. Says (line (fault_text fault.now ∷ [])) 3 a.text.items a.status) }
{
    Ok(Answer::of_fault(alloc, fault)?.into_bytes())
}

/// The answer to a text of version 2 or 3.
fn not_old(alloc: Global) -> Result<ByteAnswer, AllocError>
    ensures { IfOk result (λ a. Says (line (codes "fault G1 NotOld" ∷ [])) 3 a.text.items a.status) }
{
    Ok(ByteAnswer {
        text: String::from_str(alloc, "fault G1 NotOld\n")?.into_bytes(),
        status: FAULTY,
    })
}

/// The answer to the bytes of a network file, and their first fault, if they declare no network.
fn migrate_answer(
    alloc: Global,
    input: &[u8],
) -> (Result<ByteAnswer, AllocError>, Option<TextFault>)
    ensures answer { IfOk result.0 (λ a. IsMigrateAnswer input.now a.text.items a.status) }
    ensures fault { IfSome result.1 (λ fault. network_text input.now ≡ Err fault) }
{
    match sw_file::migrate(alloc, input) {
        Ok(text) => {
            let status = GOOD;
            (Ok(ByteAnswer { text, status }), None)
        }
        Err(OrMemory::Fault(MigrateFault::Text(fault))) => (
            fault_answer(alloc, &fault),
            Some(fault),
        ),
        Err(OrMemory::Fault(MigrateFault::NotOld)) => (not_old(alloc), None),
        Err(OrMemory::Memory) => (Err(AllocError), None),
    }
}

/// The network file of version 1 as one of version 2: with status 0 a text of version 2 that declares the same network.
pub fn migrate<R: Read, W: Write>(alloc: Global, reader: &mut R, writer: &mut W) -> MigrateEnd
    ensures ended { EndsBy IsMigrateAnswer (R.remaining reader.old) (R.remaining reader.new) (W.contents writer.old) (W.contents writer.new) result.ended }
    ensures faulty { IfSome result.faulty (λ read. network_text read.text.items ≡ Err read.fault) }
{
    let text = match read_whole(alloc, reader, MAX_TEXT) {
        Ok(text) => text,
        Err(error) => return MigrateEnd::from_ended(tell_unread(error, writer)),
    };
    let (answer, fault) = migrate_answer(alloc, &text);
    let ended = tell_answer(answer, writer);
    match fault {
        Some(fault) => MigrateEnd {
            ended,
            faulty: Some(FaultyText { text, fault }),
        },
        None => MigrateEnd::from_ended(ended),
    }
}
