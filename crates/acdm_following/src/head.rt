//! The first line of a connection.
ghost use Rattle.std.specs.Prelude.{◌≡◌, option_map, IfOk};
ghost use Rattle.serde_json.specs.View.{view};
ghost use Rattle.acdm_following.specs.Heads.{head_of, head_view, json_of};

use serde_json::Value;
use std::alloc::{AllocError, Global};

/// How many bytes a first line has at most.
pub(crate) const MOST_HEAD: usize = 256;

/// What the first line of a connection says: the name of the journal, and the number of the entry that comes next.
#[derive(Drop)]
pub(crate) struct JournalHead {
    pub(crate) name: String,
    pub(crate) next: u64,
}

// The JSON of a line, if it is one.
fn json_in(alloc: Global, line: &[u8]) -> Result<Option<Value>, AllocError>
    ensures { IfOk result (λ value. option_map view value ≡ json_of line.now) }
{
    let Ok(text) = str::from_utf8(line) else {
        return Ok(None);
    };
    match Value::from_str(alloc, text) {
        Ok(value) => Ok(Some(value)),
        Err(error) => {
            if error.is_memory() {
                Err(AllocError)
            } else {
                Ok(None)
            }
        }
    }
}

/// What a line says, if it is the first line of a journal. `Err` only where memory was refused.
pub(crate) fn read_head(alloc: Global, line: &[u8]) -> Result<Option<JournalHead>, AllocError>
    ensures { IfOk result (λ head. option_map head_view head ≡ head_of line.now) }
{
    let Some(value) = json_in(alloc, line)? else {
        return Ok(None);
    };
    let Some(name) = value.get("journal").and_then(Value::as_str) else {
        return Ok(None);
    };
    let Some(next) = value.get("next").and_then(Value::as_u64) else {
        return Ok(None);
    };
    let name = String::from_str(alloc, name)?;
    Ok(Some(JournalHead { name, next }))
}
