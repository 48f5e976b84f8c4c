//! From what a line asks for to a command.
ghost use Rattle.std.specs.Prelude.{◌≡◌, true, false, IfOk};
ghost use Rattle.acdm_board.specs.Desk.{is_foreign};
ghost use Rattle.acdm_wire.specs.Meant.{is_plain};
ghost use Rattle.acdm_sessions.specs.Output.{Completes};

use acdm_step::{Command, Load, StatedCommand};
use bpf_helpers::Sigs;
use bpf_verifier::{ProgramError, read_program};
use std::alloc::Global;

/// The command that is asked for, with the program that the bytes of a load encode, checked for
/// records of the length that it names.
pub(crate) fn command_for(
    alloc: Global,
    asked: StatedCommand,
    sigs: &Sigs,
) -> Result<Command, ProgramError>
    requires { is_plain asked ≡ true }
    ensures reads { Completes sigs.now asked result }
    ensures checked { IfOk result (λ command. is_foreign sigs.now command ≡ false) }
{
    match asked {
        StatedCommand::Plain(command) => Ok(command),
        StatedCommand::Load(load) => {
            let program = match read_program(
                alloc,
                load.program.as_slice(),
                sigs,
                load.record_length,
            ) {
                Ok(program) => program,
                Err(error) => return Err(error),
            };
            Ok(Command::Load(Load {
                milestone: load.milestone,
                kind: load.kind,
                program,
            }))
        }
    }
}
