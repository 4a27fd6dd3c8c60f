//! The texts of an audit.
ghost use Rattle.std.specs.Prelude.{◌≡◌, ◌∷◌, [], ◌++◌, All, IfOk, map, string_bytes, true};
ghost use Rattle.std.specs.List.{zip};
ghost use Rattle.serde_json.specs.View.{view};
ghost use Rattle.sw_json.specs.Plain.{IsPlain};
ghost use Rattle.sw_json_verdicts.specs.AuditAnswers.{IsJson, IsText};
ghost use Rattle.sw_json_verdicts.specs.AuditTexts.{lines_text, objects};
ghost use Rattle.sw_json_verdicts.specs.Judgements.{finding_of, findings_of, object_of};

use crate::audit_options::AuditOptions;
use crate::judged::{Judged, kind_entry};
use crate::statuses::is_told;
use std::alloc::{AllocError, Global};
use std::fmt::Write;
use sw_faults::show;
use sw_json::laws::audits_are_plain;
use sw_json::{Value, audit_value, text_of};
use sw_text::statuses::NO_ROOM;

/// Adds the line of a file, if it is told: the status, the verdict in a word, and the path as a terminal shows it.
fn add_line(
    alloc: Global,
    quiet: bool,
    path: &str,
    judged: &Judged,
    text: &mut String,
) -> Result<(), AllocError>
    ensures { IfOk result (λ _. string_bytes text.new ≡ string_bytes text.old ++ lines_text quiet ((path.now, finding_of path.now judged.now) ∷ [])) }
{
    if !is_told(quiet, judged.status) {
        return Ok(());
    }
    let status = judged.status;
    let word = judged.word;
    let path = show(alloc, path.as_bytes())?;
    write!(text, "{status} {word} {path}\n")
}

/// A line for each file that is told.
fn lines_text(
    alloc: Global,
    quiet: bool,
    paths: &[&str],
    all: &[Judged],
) -> Result<String, AllocError>
    ensures { IfOk result (λ s. string_bytes s ≡ lines_text quiet (zip (map (λ s. s.now) paths.now) (findings_of (map (λ s. s.now) paths.now) all.now))) }
{
    let mut text = String::new(alloc);
    for (path, judged) in paths.iter().zip(all) {
        add_line(alloc, quiet, *path, judged, &mut text)?;
    }
    Ok(text)
}

/// The object of a file.
fn object_of(alloc: Global, path: &str, entry: Option<Value>) -> Result<Value, AllocError>
    ensures { IfOk result (λ v. view v ≡ object_of path.now entry) }
{
    match entry {
        Some(value) => Ok(value),
        None => kind_entry(alloc, path, NO_ROOM, "memory"),
    }
}

/// Adds the object of a file, if it is told.
fn add_object(
    alloc: Global,
    quiet: bool,
    path: &str,
    judged: Judged,
    values: &mut Vec<Value>,
) -> Result<(), AllocError>
    ensures { IfOk result (λ _. map view values.new.items ≡ map view values.old.items ++ objects quiet ((path.now, finding_of path.now judged) ∷ [])) }
{
    let Judged {
        status,
        word: _,
        entry,
        flowless: _,
    } = judged;
    if !is_told(quiet, status) {
        return Ok(());
    }
    let value = object_of(alloc, path, entry)?;
    values.push(value)?;
    Ok(())
}

/// The objects of the files that are told.
fn objects(
    alloc: Global,
    quiet: bool,
    paths: &[&str],
    all: Vec<Judged>,
) -> Result<Vec<Value>, AllocError>
    ensures { IfOk result (λ v. map view v.items ≡ objects quiet (zip (map (λ s. s.now) paths.now) (findings_of (map (λ s. s.now) paths.now) all.items))) }
{
    let mut values = Vec::new(alloc);
    for (path, judged) in paths.iter().zip(all) {
        add_object(alloc, quiet, *path, judged, &mut values)?;
    }
    Ok(values)
}

/// One object for all files that are told.
fn json_text(
    alloc: Global,
    options: &AuditOptions<'_>,
    paths: &[&str],
    all: Vec<Judged>,
) -> Result<String, AllocError>
    requires { All (λ f. IsPlain 5 f.object) (findings_of (map (λ s. s.now) paths.now) all.items) }
    ensures { IfOk result (λ s. IsJson options.now (zip (map (λ s. s.now) paths.now) (findings_of (map (λ s. s.now) paths.now) all.items)) (string_bytes s)) }
{
    audits_are_plain();
    let files = objects(alloc, options.quiet, paths, all)?;
    let value = audit_value(alloc, files, options.release)?;
    text_of(alloc, &value)
}

/// The text of what was judged: a line for each file, or one object.
///
/// # Errors
///
/// There is no memory for the text.
pub(crate) fn audit_text(
    alloc: Global,
    options: &AuditOptions<'_>,
    paths: &[&str],
    all: Vec<Judged>,
) -> Result<String, AllocError>
    requires { options.now.json ≡ true → All (λ f. IsPlain 5 f.object) (findings_of (map (λ s. s.now) paths.now) all.items) }
    ensures { IfOk result (λ s. IsText options.now (zip (map (λ s. s.now) paths.now) (findings_of (map (λ s. s.now) paths.now) all.items)) (string_bytes s)) }
{
    if options.json {
        json_text(alloc, options, paths, all)
    } else {
        lines_text(alloc, options.quiet, paths, &all)
    }
}
