//! The JSON of a line: its members as they were read, or a value of `serde_json`.
ghost use Rattle.std.specs.Prelude.{◌≡◌, [], is_some, option_map, option_and_then, IfOk, OnOk, IsTrue, Err};
ghost use Rattle.serde_json.specs.Data.{no_members};
ghost use Rattle.serde_json.specs.Find.{get, get_member, as_null, as_number, as_str, as_u64};
ghost use Rattle.acdm_wire.specs.Meant.{GivesView, json_of, has_null};
ghost use Rattle.acdm_wire.specs.Memory.{json_needs_memory};
ghost use Rattle.acdm_wire.specs.Plain.{data_of, value_data, with_members};

use crate::fault::RequestFault;
use crate::plain::{MOST_MEMBERS, PlainMember, PlainValue, plain_in};
use crate::request::LineError;
use arrayvec::ArrayVec;
use serde_json::Value;
use std::alloc::Global;

/// The JSON of a line.
#[derive(Drop)]
pub(crate) enum LineJson<'a, 'b> {
    /// The members of a plain object, of which the last of a name counts.
    Plain(&'a [PlainMember<'b>]),
    /// Any other.
    Value(Value),
}

// The value under this name, which is that of the last member of it.
fn last_of<'a>(members: &[PlainMember<'a>], name: &[u8]) -> Option<PlainValue<'a>>
    ensures { option_map value_data result ≡ get_member name.now (with_members members.now no_members) }
{
    let mut left = members.len();
    'left: while left > 0 {
        left -= 1;
        let member = members[left];
        if member.name == name {
            return Some(member.value);
        }
    }
    None
}

impl<'a, 'b> LineJson<'a, 'b> {
    /// The text under this key.
    pub(crate) fn text(&self, key: &str) -> Option<&str>
        ensures { option_map (λ s. s.now) result
            ≡ option_and_then as_str (get key.now (data_of self.now)) }
    {
        match self {
            LineJson::Plain(members) => match last_of(members, key.as_bytes()) {
                Some(PlainValue::Text(text)) => Some(text),
                _ => None,
            },
            LineJson::Value(value) => value.get(key).and_then(Value::as_str),
        }
    }

    /// The whole number of 64 bits under this key.
    pub(crate) fn number(&self, key: &str) -> Option<u64>
        ensures { result
            ≡ option_and_then as_u64 (option_and_then as_number (get key.now (data_of self.now))) }
    {
        match self {
            LineJson::Plain(members) => match last_of(members, key.as_bytes()) {
                Some(PlainValue::Number(number)) => Some(number),
                _ => None,
            },
            LineJson::Value(value) => value.get(key).and_then(Value::as_u64),
        }
    }

    /// Whether there is a null under this key.
    pub(crate) fn has_null(&self, key: &str) -> bool
        ensures { result ≡ has_null key.now (data_of self.now) }
    {
        match self {
            LineJson::Plain(members) => {
                matches!(last_of(members, key.as_bytes()), Some(PlainValue::Null))
            }
            LineJson::Value(value) => value.get(key).and_then(Value::as_null).is_some(),
        }
    }

    /// Whether there is anything under this key.
    pub(crate) fn has(&self, key: &str) -> bool
        ensures { result ≡ is_some (get key.now (data_of self.now)) }
    {
        match self {
            LineJson::Plain(members) => last_of(members, key.as_bytes()).is_some(),
            LineJson::Value(value) => value.get(key).is_some(),
        }
    }
}

/// The JSON of these bytes, whose members are kept in `found` where they are a plain object.
pub(crate) fn json_in<'a, 'b>(
    alloc: Global,
    bytes: &'b [u8],
    found: &'a mut ArrayVec<PlainMember<'b>, MOST_MEMBERS>,
) -> Result<LineJson<'a, 'b>, LineError>
    requires { found.old.items ≡ [] }
    ensures reads { GivesView data_of result (json_of bytes.now) }
    ensures memory { result ≡ Err LineError.Memory → IsTrue (json_needs_memory bytes.now) }
    ensures needs { OnOk result (IsTrue (json_needs_memory bytes.now)) }
{
    let Ok(text) = str::from_utf8(bytes) else {
        return Err(LineError::Fault(RequestFault::NoJson));
    };
    if plain_in(bytes, found) {
        return Ok(LineJson::Plain(found.as_slice()));
    }
    match Value::from_str(alloc, text) {
        Ok(value) => Ok(LineJson::Value(value)),
        Err(error) => {
            if error.is_memory() {
                Err(LineError::Memory)
            } else {
                Err(LineError::Fault(RequestFault::NoJson))
            }
        }
    }
}
