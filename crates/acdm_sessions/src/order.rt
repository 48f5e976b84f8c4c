//! What a line of a session asks to be done, and when.
ghost use Rattle.std.specs.Prelude.{◌≡◌, ◌≤◌, false, IfOk};
ghost use Rattle.acdm_board.specs.Desk.{is_foreign};
ghost use Rattle.acdm_sessions.specs.Orders.{Orders};

use crate::clock::Clock;
use crate::loading::command_for;
use acdm_step::Command;
use acdm_wire::{Bad, LineError, asked_of};
use bpf_helpers::Sigs;
use std::alloc::Global;

/// A command at a minute since 1970-01-01T00:00Z.
#[derive(Drop)]
pub(crate) struct Order {
    pub(crate) moment: u32,
    pub(crate) command: Command,
}

/// What a line asks to be done, at the minute that the clock tells, or the first fault in it. A
/// program is read under these signatures. The line stands without its line feed.
pub(crate) fn order_in<C: Clock>(
    alloc: Global,
    line: &[u8],
    sigs: &Sigs,
    clock: &mut C,
) -> Result<Order, Bad>
    ensures orders { Orders (C.gives clock.old) sigs.now line.now result }
    ensures from_one { IfOk result (λ order. 1 ≤ order.moment) }
    ensures checked { IfOk result (λ order. is_foreign sigs.now order.command ≡ false) }
    ensures same { C.gives clock.new ≡ C.gives clock.old }
{
    let asked = match asked_of(alloc, line) {
        Ok(asked) => asked,
        Err(LineError::Memory) => return Err(Bad::NoMemory),
        Err(LineError::Fault(fault)) => return Err(Bad::Faulty(fault)),
    };
    let Some(moment) = clock.minute() else {
        return Err(Bad::NoMinute);
    };
    match command_for(alloc, asked, sigs) {
        Ok(command) => Ok(Order { moment, command }),
        Err(error) => Err(Bad::from(error)),
    }
}
