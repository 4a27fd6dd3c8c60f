//! What `check` finds as a value of JSON.
ghost use Rattle.std.specs.Prelude.{◌≡◌, IfOk, codes, option_map};
ghost use Rattle.serde_json.specs.View.{view};
ghost use Rattle.sw_app.specs.CheckTexts.{grammar_words, refusal_words};
ghost use Rattle.sw_json.specs.Answering.{IsCommandOutcome};
ghost use Rattle.sw_json.specs.FileValues.{kind_value};
ghost use Rattle.sw_json.specs.Objects.{member_value};
ghost use Rattle.sw_json.specs.Simple.{text_or_null};
ghost use Rattle.sw_json_verdicts.specs.CheckResults.{check_results, grammar_reason, reason_of, refused_value};
ghost use Rattle.sw_json_verdicts.specs.Reasons.{reason_parts_view};

use crate::laws::refusals_are_plain;
use crate::reasons::{ReasonParts, grammar_parts, parts_of};
use std::alloc::{AllocError, Global};
use sw_app::{CheckFinding, grammar_words, refusal_words};
use sw_cert::Refusal;
use sw_config::Network;
use sw_json::laws::kinds_are_plain;
use sw_json::{
    CommandOutcome, Member, SecondFile, Value, count_or_null, kind_value, long_file, object_of,
};
use sw_text::statuses::{BAD, GOOD};

/// A text, or null where there is none.
fn text_or_null(text: Option<&str>) -> Member<'_>
    ensures { member_value result ≡ text_or_null (option_map (λ s. s.now) text.entry) }
{
    match text {
        Some(text) => Member::Text(text),
        None => Member::Value(Value::Null),
    }
}

/// A certificate that is refused: the reason's parts, and the line of the text answer.
fn refused_value<'a>(
    alloc: Global,
    parts: ReasonParts<'a>,
    text: &'a str,
) -> Result<Value, AllocError>
    ensures { IfOk result (λ v. view v ≡ refused_value (reason_parts_view parts.entry) text.now) }
{
    let members = vec![in alloc;
        ("channel", Member::Value(count_or_null(parts.channel))),
        ("code", Member::Text(parts.code)),
        ("deleted", Member::Value(count_or_null(parts.deleted))),
        ("fault", text_or_null(parts.fault)),
        ("flow", text_or_null(parts.flow)),
        ("kind", Member::Text("refused")),
        ("line", Member::Value(count_or_null(parts.line))),
        ("next", Member::Value(count_or_null(parts.next))),
        ("text", Member::Text(text)),
    ]?;
    object_of(alloc, members)
}

/// The result for a certificate that is refused.
fn refusal_outcome(
    alloc: Global,
    parts: ReasonParts<'_>,
    text: &str,
) -> Result<CommandOutcome, AllocError>
    ensures { IfOk result (λ o. IsCommandOutcome (refused_value (reason_parts_view parts.entry) text.now) 1 (view o.result) o.status) }
{
    refusals_are_plain();
    let result = refused_value(alloc, parts, text)?;
    Ok(CommandOutcome {
        result,
        status: BAD,
    })
}

/// The result for a certificate that is refused for the network.
fn outcome_of_refusal(
    alloc: Global,
    network: &Network,
    refusal: Refusal,
) -> Result<CommandOutcome, AllocError>
    ensures { IfOk result (λ o. IsCommandOutcome (refused_value (reason_of network.now refusal) (refusal_words network.now refusal)) 1 (view o.result) o.status) }
{
    let parts = parts_of(network, &refusal);
    let text = refusal_words(alloc, network, refusal)?;
    refusal_outcome(alloc, parts, text.as_str())
}

/// The result for a text that is no certificate, by its first wrong line.
fn outcome_of_wrong_line(alloc: Global, number: usize) -> Result<CommandOutcome, AllocError>
    ensures { IfOk result (λ o. IsCommandOutcome (refused_value (grammar_reason number) (grammar_words number)) 1 (view o.result) o.status) }
{
    let text = grammar_words(alloc, number)?;
    refusal_outcome(alloc, grammar_parts(number), text.as_str())
}

/// The result for a certificate that is accepted.
fn accepted_outcome(alloc: Global) -> Result<CommandOutcome, AllocError>
    ensures { IfOk result (λ o. IsCommandOutcome (kind_value (codes "accepted")) 0 (view o.result) o.status) }
{
    kinds_are_plain();
    let result = kind_value(alloc, "accepted")?;
    Ok(CommandOutcome {
        result,
        status: GOOD,
    })
}

/// The result for what was found of a network and a certificate file.
///
/// # Errors
///
/// There is no memory for it.
pub(crate) fn check_outcome(
    alloc: Global,
    second: SecondFile<'_>,
    network: &Network,
    found: &CheckFinding,
) -> Result<CommandOutcome, AllocError>
    ensures { IfOk result (λ o. check_results second.entry.path.now network.now found.now (view o.result) o.status) }
{
    match found {
        CheckFinding::TooLong => long_file(alloc, second.path),
        CheckFinding::WrongLine(number) => outcome_of_wrong_line(alloc, *number),
        CheckFinding::Refused(_, refusal) => outcome_of_refusal(alloc, network, *refusal),
        CheckFinding::Accepted => accepted_outcome(alloc),
    }
}
