//! What a line of a session asks for.
ghost use Rattle.std.specs.Prelude.{◌≡◌, true, IfOk, IsTrue, Err};
ghost use Rattle.acdm_wire.specs.Meant.{Gives, asked_of, is_plain};
ghost use Rattle.acdm_wire.specs.Memory.{asked_needs_memory};

use crate::fault::RequestFault;
use crate::field::command_in;
use crate::line_json::json_in;
use crate::request::{LONGEST_REQUEST, LineError};
use acdm_step::StatedCommand;
use arrayvec::ArrayVec;
use std::alloc::Global;

/// What a line of a session asks for, or the first fault in it (this project's profile). It is JSON
/// alone (RFC 8259), and stands without its line feed.
///
/// `Memory` comes only where some was asked for: not for a line that is too long, empty or no UTF-8.
#[tactic(auto, unfolding(crate::specs::Meant::asked_of, crate::specs::Memory::asked_needs_memory))]
pub fn asked_of(alloc: Global, line: &[u8]) -> Result<StatedCommand, LineError>
    ensures reads { Gives result (asked_of line.now) }
    ensures memory { result ≡ Err LineError.Memory → IsTrue (asked_needs_memory line.now) }
    ensures plain { IfOk result (λ asked. is_plain asked ≡ true) }
{
    if line.len() > LONGEST_REQUEST {
        return Err(LineError::Fault(RequestFault::TooLong));
    }
    let mut found = ArrayVec::new();
    let value = json_in(alloc, line, &mut found)?;
    command_in(alloc, &value)
}
