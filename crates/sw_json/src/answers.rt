//! Answers as values.
ghost use Rattle.std.specs.Prelude.{◌≡◌, IfOk, map};
ghost use Rattle.serde_json.specs.View.{view};
ghost use Rattle.sw_json.specs.AnswerValues.{answer_value, file_fault_value};

use crate::files::Release;
use crate::objects::{Member, object_of};
use serde_json::Value;
use std::alloc::{AllocError, Global};

/// The result of a command of whose files the one of this path has the fault.
///
/// # Errors
///
/// There is no memory for the value.
pub fn file_fault_value(alloc: Global, path: &str, fault: Value) -> Result<Value, AllocError>
    ensures { IfOk result (λ v. view v ≡ file_fault_value path.now (view fault)) }
{
    let members = vec![in alloc;
        ("fault", Member::Value(fault)),
        ("kind", Member::Text("fault")),
        ("path", Member::Text(path)),
    ]?;
    object_of(alloc, members)
}

/// The answer of a command, by this release of the program: `files` are the objects of the files that it was given, in the order of its
/// words, and `found` is that of its result.
///
/// # Errors
///
/// There is no memory for the value.
pub fn answer_value<'a>(
    alloc: Global,
    command: &'a str,
    files: Vec<Value>,
    found: Value,
    status: u8,
    release: Release<'a>,
) -> Result<Value, AllocError>
    ensures { IfOk result (λ v. view v ≡ answer_value command.now (map view files.items) (view found) status release.entry.toolchain.now release.entry.version.now) }
{
    let toolchain = release.toolchain;
    let version = release.version;
    let members = vec![in alloc;
        ("command", Member::Text(command)),
        ("files", Member::Value(Value::Array(files))),
        ("result", Member::Value(found)),
        ("status", Member::Number(u64::from(status))),
        ("toolchain", Member::Text(toolchain)),
        ("version", Member::Text(version)),
    ]?;
    object_of(alloc, members)
}
