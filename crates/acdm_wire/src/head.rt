//! The words before the JSON of a line.
ghost use Rattle.std.specs.Prelude.{◌≡◌, ◌<◌, ◌≤◌, length, position, true, IfSome, IfOk, IsTrue, Err};
ghost use Rattle.acdm_wire.specs.Meant.{Gives, Sees, is_space, word_at, natural_of};
ghost use Rattle.acdm_wire.specs.Meant.{number_word, head_of, meant, is_plain};
ghost use Rattle.acdm_wire.specs.Memory.{request_needs_memory};

use crate::fault::RequestFault;
use crate::field::command_in;
use crate::line_json::json_in;
use crate::request::{LONGEST_REQUEST, LineError, Request};
use acdm_milestones::Role;
use arrayvec::ArrayVec;
use std::alloc::Global;

// The place of the first space.
fn space_in(line: &[u8]) -> Option<usize>
    ensures place { result ≡ position is_space line.now }
    ensures inside { IfSome result (λ i. i < length line.now) }
{
    line.iter().position(|byte| *byte == b' ')
}

// The bytes before the first space, and those after it.
fn word_in(line: &[u8]) -> Result<(&[u8], &[u8]), RequestFault>
    ensures { Sees (λ x. (x.0.now, x.1.now)) result (word_at line.now) }
{
    let Some(end) = space_in(line) else {
        return Err(RequestFault::Prefix);
    };
    Ok((&line[..end], &line[end + 1..]))
}

// A number without leading zeros.
#[tactic(auto, unfolding(crate::specs::Meant::natural_of))]
fn natural_in(word: &[u8]) -> Option<u64>
    ensures { result ≡ natural_of word.now }
{
    if word.is_empty() || word.len() > 10 || word[0] == b'0' {
        return None;
    }
    let mut number = 0u64;
    for byte in word {
        if !byte.is_ascii_digit() {
            return None;
        }
        number = number * 10 + u64::from(*byte - b'0');
    }
    Some(number)
}

fn number_in(word: &[u8], high: u64) -> Result<u64, RequestFault>
    ensures reads { result ≡ number_word high word.now }
    ensures within { IfOk result (λ n. (1 ≤ n) × (n ≤ high)) }
{
    let Some(number) = natural_in(word) else {
        return Err(RequestFault::Prefix);
    };
    if 1 <= number && number <= high {
        Ok(number)
    } else {
        Err(RequestFault::Prefix)
    }
}

#[derive(Drop)]
struct Head<'a> {
    session: u8,
    moment: u32,
    role: Role,
    rest: &'a [u8],
}

#[tactic(auto, unfolding(crate::specs::Meant::head_of))]
fn head_in(line: &[u8]) -> Result<Head<'_>, RequestFault>
    ensures session { IfOk result (λ h. (1 ≤ h.session) × (h.session ≤ 64)) }
    ensures moment { IfOk result (λ h. 1 ≤ h.moment) }
    ensures reads { Sees
        (λ h. record { session = h.session; moment = h.moment; role = h.role; rest = h.rest.now })
        result (head_of line.now) }
{
    let (first, line) = word_in(line)?;
    let session = number_in(first, 64)?;
    let (second, line) = word_in(line)?;
    let moment = number_in(second, 4_294_967_295)?;
    let (third, rest) = word_in(line)?;
    let Some(role) = Role::from_name(third) else {
        return Err(RequestFault::Prefix);
    };
    Ok(Head {
        session: session as u8,
        moment: moment as u32,
        role,
        rest,
    })
}

/// What a line of `run` asks for, or the first fault in it. The line stands without its line feed.
///
/// `Memory` comes only where some was asked for, which is for the JSON: not for a line that is too
/// long or has another prefix, nor for JSON that is empty or no UTF-8.
#[tactic(auto, unfolding(crate::specs::Meant::meant, crate::specs::Memory::request_needs_memory))]
pub fn request_of(alloc: Global, line: &[u8]) -> Result<Request, LineError>
    ensures reads { Gives result (meant line.now) }
    ensures memory { result ≡ Err LineError.Memory → IsTrue (request_needs_memory line.now) }
    ensures session { IfOk result (λ r. (1 ≤ r.session) × (r.session ≤ 64)) }
    ensures moment { IfOk result (λ r. 1 ≤ r.moment) }
    ensures plain { IfOk result (λ r. is_plain r.asked ≡ true) }
{
    if line.len() > LONGEST_REQUEST {
        return Err(LineError::Fault(RequestFault::TooLong));
    }
    let head = match head_in(line) {
        Ok(head) => head,
        Err(fault) => return Err(LineError::Fault(fault)),
    };
    let mut found = ArrayVec::new();
    let value = json_in(alloc, head.rest, &mut found)?;
    let asked = command_in(alloc, &value)?;
    Ok(Request {
        session: head.session,
        moment: head.moment,
        role: head.role,
        asked,
    })
}
