//! A machine for other programs, in the manner of the crate rbpf: helpers are registered, a program
//! is set, and it runs.

ghost use Rattle.std.specs.Prelude.{◌≡◌};
ghost use Rattle.std.specs.Option.{ForSome};
ghost use Rattle.bpf_machine.specs.Registry.{entries_in};

use crate::execution::execute;
use crate::refusal::{ExecuteError, RegisterFault, SetError};
use crate::registry::Registry;
use acdm_milestones::Milestone;
use bpf_decode::{NoMemory, decode};
use bpf_helpers::{BankFault, Helper, Helpers};
use bpf_regstate::Length;
use bpf_run::Ended;
use bpf_verifier::{Checked, verify};
use std::alloc::Global;

/// A helper that was not registered, and why.
#[derive(Drop)]
pub struct NotRegistered {
    pub fault: RegisterFault,
    pub helper: Helper,
}

/// A machine that holds helpers and at most one program, which was accepted with them. Contracts
/// see it by the words `helpers_of` and `program_of`.
#[derive(Drop)]
pub struct EbpfVmRaw {
    registry: Registry,
    checked: Option<Checked>,
    ghost fits: { ForSome checked (λ c. c.sigs ≡ entries_in registry) },
}

impl EbpfVmRaw {
    ghost use Rattle.std.specs.Prelude.{◌≡◌, [], ◌∷◌, ◌++◌, List, None, Some, IfSome, IsOk};
    ghost use Rattle.std.specs.Prelude.{IsErrAnd, length};
    ghost use Rattle.std.specs.Prelude.{IfOk, IfErr, OnOk, OnErr};
    ghost use Rattle.bpf_decode.specs.declared.op.Op.{Op};
    ghost use Rattle.bpf_helpers.specs.Helpers.{entry_of};
    ghost use Rattle.bpf_machine.specs.Registry.{HasRoom, IsFree, IsFull, IsTaken};
    ghost use Rattle.acdm_milestones.specs.Tables.{number};
    ghost use Rattle.bpf_machine.specs.Refusals.{IsGood, RefusesBytes, RefusesRun, RunsBeside};
    ghost use Rattle.bpf_machine.specs.Refusals.{set_code};
    ghost use Rattle.bpf_machine.specs.Outcome.{EndsSet};
    ghost use Rattle.bpf_machine.specs.Vm.{HasNoProgram, HasProgram, helpers_of, program_of};
    ghost use Rattle.bpf_machine.specs.Vm.{record_length_of};

    /// A machine without helpers and without a program, with room for 32 helpers. `Err` only where
    /// there is no memory.
    pub fn new(alloc: Global) -> Result<EbpfVmRaw, NoMemory>
        ensures helpers { IfOk result (λ vm. helpers_of vm ≡ []) }
        ensures program { IfOk result (λ vm. program_of vm ≡ None) }
        ensures no_length { IfOk result (λ vm. record_length_of vm ≡ None) }
    {
        let registry = Registry::new(alloc)?;
        Ok(EbpfVmRaw {
            registry,
            checked: None,
        })
    }

    /// Registers a helper, for which no memory is taken. It is refused where a program is set, else
    /// where its number is taken, else where 32 helpers are registered; then it comes back.
    pub fn register_helper(&mut self, helper: Helper) -> Result<(), NotRegistered>
        ensures set { HasProgram self.old
            → IsErrAnd result (λ e. e.fault ≡ RegisterFault.ProgramIsSet) }
        ensures taken { HasNoProgram self.old → IsTaken self.old.registry helper
            → IsErrAnd result (λ e. e.fault ≡ RegisterFault.NumberTaken) }
        ensures full { HasNoProgram self.old → IsFree self.old.registry helper
            → IsFull self.old.registry → IsErrAnd result (λ e. e.fault ≡ RegisterFault.Full) }
        ensures fits { HasNoProgram self.old → IsFree self.old.registry helper
            → HasRoom self.old.registry → IsOk result }

        ensures added { OnOk result (helpers_of self.new ≡ helpers_of self.old ++ entry_of helper
            ∷ []) }
        ensures kept { OnErr result (helpers_of self.new ≡ helpers_of self.old) }
        ensures program { program_of self.new ≡ program_of self.old }
        ensures same_length { record_length_of self.new ≡ record_length_of self.old }
        ensures returned { IfErr result (λ e. e.helper ≡ helper) }
    {
        if self.checked.is_some() {
            return Err(NotRegistered {
                fault: RegisterFault::ProgramIsSet,
                helper,
            });
        }
        match self.registry.add(helper) {
            Ok(()) => Ok(()),
            Err(refused) => {
                let fault = match refused.fault {
                    BankFault::NumberTaken => RegisterFault::NumberTaken,
                    BankFault::Full => RegisterFault::Full,
                };
                Err(NotRegistered {
                    fault,
                    helper: refused.helper,
                })
            }
        }
    }

    /// The program that the bytes encode, if it may run with the helpers beside a record of this
    /// length.
    fn accepted(&self, bytes: &[u8], record_length: Length) -> Result<Checked, SetError>
        ensures good { IfOk result (λ checked.
            IsGood bytes.now (helpers_of self.now) record_length checked.ops) }
        ensures long { IfOk result (λ checked. checked.record_length ≡ record_length) }
        ensures sigs { IfOk result (λ checked. checked.sigs ≡ helpers_of self.now) }
        ensures refused { IfErr result
            (RefusesBytes bytes.now (helpers_of self.now) record_length) }
        ensures only_good { (ops : List Op)
            → IsGood bytes.now (helpers_of self.now) record_length ops
            → IfErr result (λ e. set_code e ≡ 501) }
    {
        let program = match decode(self.registry.allocator(), bytes) {
            Ok(program) => program,
            Err(e) => return Err(SetError::Decode(e)),
        };
        let sigs = match self.registry.sigs() {
            Ok(sigs) => sigs,
            Err(_) => return Err(SetError::Memory),
        };
        match verify(self.registry.allocator(), program, &sigs, record_length) {
            Ok(checked) => Ok(checked),
            Err(e) => Err(SetError::Verify(e)),
        }
    }

    /// Sets the program that the bytes encode, if it may run with the helpers that are registered
    /// beside a record of this length. A refusal is the first fault of the bytes, or else of the program, and leaves what was set.
    pub fn set_program(&mut self, bytes: &[u8], record_length: Length) -> Result<(), SetError>
        ensures set { OnOk result (IfSome (program_of self.new)
            (IsGood bytes.now (helpers_of self.old) record_length)) }
        ensures long { OnOk result (record_length_of self.new ≡ Some record_length) }
        ensures some { OnOk result (HasProgram self.new) }
        ensures refused { IfErr result
            (RefusesBytes bytes.now (helpers_of self.old) record_length) }
        ensures only_good { (ops : List Op)
            → IsGood bytes.now (helpers_of self.old) record_length ops
            → IfErr result (λ e. set_code e ≡ 501) }
        ensures kept { OnErr result (program_of self.new ≡ program_of self.old) }
        ensures kept_length { OnErr result (record_length_of self.new ≡ record_length_of self.old) }
        ensures helpers { helpers_of self.new ≡ helpers_of self.old }
    {
        let checked = self.accepted(bytes, record_length)?;
        self.checked = Some(checked);
        Ok(())
    }

    /// Runs the program that is set on a flight's record, at a moment (minutes since
    /// 1970-01-01T00:00Z) and for a milestone, with the helpers' answers. It is refused where no
    /// program is set, else where the record is not as long as that beside which the program was
    /// accepted, and else only where there is no memory for the answers.
    pub fn execute_program(
        &mut self,
        record_bytes: &[u8],
        moment: u32,
        milestone: Milestone,
    ) -> Result<Ended, ExecuteError>
        ensures ended { IfOk result (EndsSet (program_of self.old) (helpers_of self.old)
            record_bytes.now moment (number milestone)) }
        ensures long { OnOk result
            (RunsBeside (record_length_of self.old) (length record_bytes.now)) }
        ensures refused { IfErr result
            (RefusesRun (record_length_of self.old) (length record_bytes.now)) }
        ensures program { program_of self.new ≡ program_of self.old }
        ensures same_length { record_length_of self.new ≡ record_length_of self.old }
        ensures helpers { helpers_of self.new ≡ helpers_of self.old }
    {
        let Some(checked) = &self.checked else {
            return Err(ExecuteError::NoProgram);
        };
        if record_bytes.len() != checked.record_length().bytes() {
            return Err(ExecuteError::OtherLength);
        }
        match execute(
            self.registry.allocator(),
            checked,
            &self.registry,
            record_bytes,
            moment,
            milestone,
        ) {
            Ok(ended) => Ok(ended),
            Err(_) => Err(ExecuteError::Memory),
        }
    }
}
