//! Files as values.
ghost use Rattle.std.specs.Prelude.{◌≡◌, IfOk, map, string_bytes};
ghost use Rattle.serde_json.specs.View.{view};
ghost use Rattle.sw_json.specs.FileValues.{audit_value, bare_entry, kind_value, read_entry};

use crate::digests::digest_text;
use crate::lists::text_values;
use crate::objects::{Member, object_of};
use serde_json::Value;
use std::alloc::{AllocError, Global};

/// What a program is: its version, and the toolchain that made it.
#[derive(Clone, Copy)]
pub struct Release<'a> {
    /// As `--version` tells it.
    pub version: &'a str,
    /// The toolchain's name, and the logic by which it proves.
    pub toolchain: &'a str,
}

/// An object that says its kind alone.
///
/// # Errors
///
/// There is no memory for the value.
pub fn kind_value(alloc: Global, kind: &str) -> Result<Value, AllocError>
    ensures { IfOk result (λ v. view v ≡ kind_value kind.now) }
{
    object_of(alloc, vec![in alloc; ("kind", Member::Text(kind))]?)
}

/// What is found of a file whose text was read. `lint` is what there is to note of its network.
///
/// # Errors
///
/// There is no memory for the value.
pub fn read_entry(
    alloc: Global,
    path: &str,
    text: &[u8],
    lint: &[String],
    status: u8,
    verdict: Value,
) -> Result<Value, AllocError>
    ensures { IfOk result (λ v. view v ≡ read_entry path.now text.now (map string_bytes lint.now) status (view verdict)) }
{
    let bytes = text.len();
    let digest = digest_text(alloc, text)?;
    let lint = text_values(alloc, lint)?;
    let members = vec![in alloc;
        ("bytes", Member::Number(bytes as u64)),
        ("lint", Member::Value(Value::Array(lint))),
        ("path", Member::Text(path)),
        ("sha256", Member::Value(Value::String(digest))),
        ("status", Member::Number(u64::from(status))),
        ("verdict", Member::Value(verdict)),
    ]?;
    object_of(alloc, members)
}

/// What is found of a file whose text was not read, or not whole.
///
/// # Errors
///
/// There is no memory for the value.
pub fn bare_entry(
    alloc: Global,
    path: &str,
    status: u8,
    verdict: Value,
) -> Result<Value, AllocError>
    ensures { IfOk result (λ v. view v ≡ bare_entry path.now status (view verdict)) }
{
    let members = vec![in alloc;
        ("bytes", Member::Value(Value::Null)),
        ("lint", Member::Value(Value::Array(Vec::new(alloc)))),
        ("path", Member::Text(path)),
        ("sha256", Member::Value(Value::Null)),
        ("status", Member::Number(u64::from(status))),
        ("verdict", Member::Value(verdict)),
    ]?;
    object_of(alloc, members)
}

/// What is found of files, by this release of the program.
///
/// # Errors
///
/// There is no memory for the value.
pub fn audit_value(
    alloc: Global,
    files: Vec<Value>,
    release: Release<'_>,
) -> Result<Value, AllocError>
    ensures { IfOk result (λ v. view v ≡ audit_value (map view files.items) release.entry.toolchain.now release.entry.version.now) }
{
    let toolchain = release.toolchain;
    let version = release.version;
    let members = vec![in alloc;
        ("files", Member::Value(Value::Array(files))),
        ("toolchain", Member::Text(toolchain)),
        ("version", Member::Text(version)),
    ]?;
    object_of(alloc, members)
}
