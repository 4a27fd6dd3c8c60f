//! Faults of texts as values.
ghost use Rattle.std.specs.Fmt.{decimal};
ghost use Rattle.std.specs.Option.{option_transpose};
ghost use Rattle.std.specs.Prelude.{◌≡◌, ◌≤◌, ◌∷◌, [], IfOk, IfSome, codes, length, option_map, string_bytes};
ghost use Rattle.sw_output.specs.Lines.{spaced};
ghost use Rattle.sw_faults.specs.LineColumn.{column_of, line_of};
ghost use Rattle.serde_json.specs.Data.{string};
ghost use Rattle.serde_json.specs.View.{view};
ghost use Rattle.sw_json.specs.Objects.{member_value, object_of};
ghost use Rattle.sw_json.specs.Simple.{count_or_null};
ghost use Rattle.sw_json.specs.FaultValues.{IsFaultValue, fault_where, long_value, schedule_fault_value, topology_where, unknown_flow_value};

use crate::codes::fault_code;
use crate::objects::{Member, object_of};
use crate::simple::{count_or_null, text_or_null};
use serde_json::Value;
use std::alloc::{AllocError, Global};
use sw_faults::{fault_offset, position_at};
use sw_text::{TextFault, fault_text, where_text};
use sw_topo::{Limit, TopoFault};

/// What has the fault, by its kind and its number.
fn kind_and_number(alloc: Global, kind: &str, number: u64) -> Result<String, AllocError>
    ensures { IfOk result (λ s. string_bytes s ≡ spaced (kind.now ∷ decimal number ∷ [])) }
{
    format!(in alloc; "{kind} {number}")
}

fn topology_where(alloc: Global, fault: TopoFault) -> Result<String, AllocError>
    ensures { IfOk result (λ s. string_bytes s ≡ topology_where fault) }
{
    match fault {
        TopoFault::TooMany(Limit::Nodes) => String::from_str(alloc, "node"),
        TopoFault::TooMany(Limit::Switches) => String::from_str(alloc, "switch"),
        TopoFault::TooMany(Limit::Links) => String::from_str(alloc, "link"),
        TopoFault::PortTaken(link) => kind_and_number(alloc, "link", u64::from(link)),
        TopoFault::NodeLinks(node) => kind_and_number(alloc, "node", u64::from(node)),
        TopoFault::PortUnlinked(switch) => kind_and_number(alloc, "switch", u64::from(switch)),
    }
}

/// What has the fault, if there was memory for its words. Of a text that is no TOML nothing.
#[tactic(auto, using(crate::proofs::FaultWords::told_words))]
fn fault_where(alloc: Global, fault: &TextFault) -> Option<Result<String, AllocError>>
    ensures { IfOk (option_transpose result) (λ o. option_map string_bytes o ≡ fault_where fault.now) }
{
    match fault {
        TextFault::Syntax => None,
        TextFault::UnknownKey(section, key) => Some(where_text(alloc, *section, key.as_str())),
        TextFault::Key(_, section, key) => Some(where_text(alloc, *section, key.text())),
        TextFault::Topology(fault) => Some(topology_where(alloc, *fault)),
        TextFault::DuplicateRoute(switch, route) => {
            Some(format!(in alloc; "switch {switch} route {route}"))
        }
        TextFault::ReplyShape(flow) => Some(kind_and_number(alloc, "flow", *flow as u64)),
        TextFault::NotInFlow(packet) => Some(kind_and_number(alloc, "packet", *packet as u64)),
    }
}

/// A fault of these words, with its line and column.
fn told_fault<'a>(
    alloc: Global,
    code: &'a str,
    line: Option<u64>,
    column: Option<u64>,
    text: Member<'a>,
    place: Member<'a>,
) -> Result<Value, AllocError>
    ensures { IfOk result (λ v. view v ≡ object_of ((codes "code", string code.now) ∷ (codes "column", count_or_null column) ∷ (codes "kind", string (codes "fault")) ∷ (codes "line", count_or_null line) ∷ (codes "text", member_value text.entry) ∷ (codes "where", member_value place.entry) ∷ [])) }
{
    let members = vec![in alloc;
        ("code", Member::Text(code)),
        ("column", Member::Value(count_or_null(column))),
        ("kind", Member::Text("fault")),
        ("line", Member::Value(count_or_null(line))),
        ("text", text),
        ("where", place),
    ]?;
    object_of(alloc, members)
}

/// The line and the column of a byte of the text, where one is told.
fn line_and_column(text: &[u8], place: Option<usize>) -> (Option<u64>, Option<u64>)
    requires { IfSome place (λ at. at ≤ length text.now) }
    ensures { result ≡ (option_map (line_of text.now) place, option_map (column_of text.now) place) }
{
    match place {
        Some(at) => {
            let position = position_at(text, at);
            (Some(position.line as u64), Some(position.column as u64))
        }
        None => (None, None),
    }
}

/// The object that stands for the fault of a text.
///
/// # Errors
///
/// There is no memory for the value, or to find where the fault stands.
pub fn fault_value(alloc: Global, text: &[u8], fault: &TextFault) -> Result<Value, AllocError>
    ensures { IfOk result (λ v. IsFaultValue text.now fault.now (view v)) }
{
    let place = fault_offset(alloc, text, fault)?;
    let (line, column) = line_and_column(text, place);
    let said = fault_text(alloc, fault)?;
    let faulted = fault_where(alloc, fault).transpose()?;
    told_fault(
        alloc,
        fault_code(fault),
        line,
        column,
        Member::Value(Value::String(said)),
        Member::Value(text_or_null(faulted)),
    )
}

/// The object that stands for a text that is longer than a text may be.
///
/// # Errors
///
/// There is no memory for the value.
pub fn long_value(alloc: Global) -> Result<Value, AllocError>
    ensures { IfOk result (λ v. view v ≡ long_value) }
{
    told_fault(
        alloc,
        "A1",
        None,
        None,
        Member::Text("fault A1 TooLong"),
        Member::Value(Value::Null),
    )
}

/// The object that stands for a schedule's first wrong line, by its number, which counts from 1.
///
/// # Errors
///
/// There is no memory for the value.
pub fn schedule_fault_value(alloc: Global, number: u64) -> Result<Value, AllocError>
    ensures { IfOk result (λ v. view v ≡ schedule_fault_value number) }
{
    let text = format!(in alloc; "fault S1 BadLine {number}")?;
    told_fault(
        alloc,
        "S1",
        Some(number),
        None,
        Member::Value(Value::String(text)),
        Member::Value(Value::Null),
    )
}

/// The object that stands for a word that names no flow of the network.
///
/// # Errors
///
/// There is no memory for the value.
pub fn unknown_flow_value(alloc: Global) -> Result<Value, AllocError>
    ensures { IfOk result (λ v. view v ≡ unknown_flow_value) }
{
    told_fault(
        alloc,
        "F7",
        None,
        None,
        Member::Text("fault F7 UnknownName argument"),
        Member::Text("argument"),
    )
}
