//! What `report` finds, as a value of JSON.
ghost use Rattle.std.specs.Prelude.{◌≡◌, ℕ, IfOk, List};
ghost use Rattle.serde_json.specs.View.{view};
ghost use Rattle.sw_json.specs.VerdictValues.{certificate_bytes};
ghost use Rattle.sw_search.specs.Verdicts.{IsVerdict};
ghost use Rattle.sw_json.specs.Simple.{texts_value};
ghost use Rattle.sw_linter.specs.LintTexts.{AreLintTexts};
ghost use Rattle.sw_json_verdicts.specs.ReportResults.{report_results, report_value};

use crate::laws::reports_are_plain;
use std::alloc::{AllocError, Global};
use sw_config::Network;
use sw_json::{CommandOutcome, Member, Value, object_of, text_values, verdict_value};
use sw_linter::lint_texts;
use sw_search::{Findings, Verdict};
use sw_text::statuses::GOOD;

/// The text of a verdict's certificate; of a verdict without one, nothing.
fn certificate_text(alloc: Global, verdict: &Verdict) -> Result<Vec<u8>, AllocError>
    ensures { IfOk result (λ text. text.items ≡ certificate_bytes verdict.now) }
{
    match verdict {
        Verdict::Misrouted(_, _, _) | Verdict::Cyclic(_) => Ok(Vec::new(alloc)),
        Verdict::Free(certificate) => certificate.write(alloc),
    }
}

/// What there is to note of a network.
fn lint_value(alloc: Global, network: &Network) -> Result<Value, AllocError>
    ensures { IfOk result (λ v. (lint : List (List ℕ)) × AreLintTexts network.now lint × (view v ≡ texts_value lint)) }
{
    let lint = lint_texts(alloc, network)?;
    Ok(Value::Array(text_values(alloc, &lint)?))
}

/// How many parts the network has, with what there is to note of it and its verdict.
fn told_report(
    alloc: Global,
    network: &Network,
    lint: Value,
    findings: &Findings,
    verdict: Value,
) -> Result<Value, AllocError>
    ensures { IfOk result (λ v. view v ≡ report_value network.now (view lint) findings.now.places findings.now.dependencies (view verdict)) }
{
    let declared = network.declared_flows();
    let replies = network.flows() - declared;
    let members = vec![in alloc;
        ("channels", Member::Number(u64::from(network.channels()))),
        ("dependencies", Member::Number(findings.dependencies)),
        ("flows", Member::Number(u64::from(declared))),
        ("kind", Member::Text("report")),
        ("links", Member::Number(u64::from(network.links()))),
        ("lint", Member::Value(lint)),
        ("nodes", Member::Number(u64::from(network.nodes()))),
        ("places", Member::Number(findings.places)),
        ("replies", Member::Number(u64::from(replies))),
        ("switches", Member::Number(u64::from(network.switches()))),
        ("verdict", Member::Value(verdict)),
    ]?;
    object_of(alloc, members)
}

/// The result of `report`, where it found this of a network.
///
/// # Errors
///
/// There is no memory for it.
pub(crate) fn report_outcome(
    alloc: Global,
    network: &Network,
    findings: &Findings,
) -> Result<CommandOutcome, AllocError>
    requires { IsVerdict network.now findings.now.verdict }
    ensures { IfOk result (λ o. report_results network.now findings.now (view o.result) o.status) }
{
    reports_are_plain();
    let text = certificate_text(alloc, &findings.verdict)?;
    let verdict = verdict_value(alloc, network, &findings.verdict, &text)?;
    let lint = lint_value(alloc, network)?;
    let result = told_report(alloc, network, lint, findings, verdict)?;
    Ok(CommandOutcome {
        result,
        status: GOOD,
    })
}
