//! Lists of values.
ghost use Rattle.std.specs.Prelude.{◌≡◌, ◌++◌, ◌∷◌, [], IfOk, IsOkAnd, List, OnErr, OnOk, map, string_bytes};
ghost use Rattle.serde_json.specs.Data.{string};
ghost use Rattle.serde_json.specs.View.{view};
ghost use Rattle.sw_json.specs.PlaceValues.{flow_name_value};

use serde_json::Value;
use std::alloc::{AllocError, Global};
use sw_config::Network;
use sw_output::flow_name;

/// Adds a value to a list, if there was memory for it. A loop that makes values so has one way out a turn.
///
/// # Errors
///
/// There is no memory for the longer list, or there was none for the value.
pub fn add_value(
    value: Result<Value, AllocError>,
    values: &mut Vec<Value>,
) -> Result<(), AllocError>
    ensures added { OnOk result (IsOkAnd value (λ v. values.new.items ≡ values.old.items ++ v ∷ [])) }
    ensures as_before { OnErr result (values.new.items ≡ values.old.items) }
{
    values.push(value?)?;
    Ok(())
}

/// A value for each text.
///
/// # Errors
///
/// There is no memory for the values.
pub fn text_values(alloc: Global, texts: &[String]) -> Result<Vec<Value>, AllocError>
    ensures { IfOk result (λ v. map view v.items ≡ map string (map string_bytes texts.now)) }
{
    let mut values = Vec::new(alloc);
    for text in texts {
        add_value(Value::try_from_str(alloc, text.as_str()), &mut values)?;
    }
    Ok(values)
}

/// A value for the name of each of the flows, which are told by their numbers.
///
/// # Errors
///
/// There is no memory for the values.
pub fn flow_name_values(
    alloc: Global,
    network: &Network,
    flows: &[u16],
) -> Result<Vec<Value>, AllocError>
    ensures { IfOk result (λ v. map view v.items ≡ map (flow_name_value network.now) flows.now) }
{
    let mut values = Vec::new(alloc);
    for flow in flows {
        add_value(
            Value::try_from_str(alloc, flow_name(network, *flow)),
            &mut values,
        )?;
    }
    Ok(values)
}
