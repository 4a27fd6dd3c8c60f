//! Objects by a list of their members.
ghost use Rattle.std.specs.Prelude.{◌≡◌, IfOk, map};
ghost use Rattle.serde_json.specs.Data.{Members, put};
ghost use Rattle.serde_json.specs.View.{members_view, view};
ghost use Rattle.sw_json.specs.Objects.{member_value, object_of, with_members};

use serde_json::{Map, Value, put};
use std::alloc::{AllocError, Global};

/// What stands at a name of an object: a text, a number, a truth value, or a value that was made before.
#[derive(Drop)]
pub enum Member<'a> {
    /// A JSON string.
    Text(&'a str),
    /// A number of JSON, from 0 on.
    Number(u64),
    /// `true` or `false`.
    Truth(bool),
    /// A value as it is.
    Value(Value),
}

/// The value of a member.
fn made_value(alloc: Global, member: Member<'_>) -> Result<Value, AllocError>
    ensures { IfOk result (λ v. view v ≡ member_value member.entry) }
{
    match member {
        Member::Text(text) => Value::try_from_str(alloc, text),
        Member::Number(number) => Ok(Value::from(number)),
        Member::Truth(truth) => Ok(Value::Bool(truth)),
        Member::Value(value) => Ok(value),
    }
}

/// The object of these members, each with its name. Of more with one name the last counts.
///
/// # Errors
///
/// There is no memory for the value.
pub fn object_of(alloc: Global, members: Vec<(&str, Member<'_>)>) -> Result<Value, AllocError>
    ensures { IfOk result (λ v. view v ≡ object_of (map (λ m. (m.0.now, member_value m.1)) members.entry.items)) }
{
    let mut object = Map::new(alloc);
    for member in members {
        put(&mut object, alloc, member.0, made_value(alloc, member.1)?)?;
    }
    Ok(Value::Object(object))
}
