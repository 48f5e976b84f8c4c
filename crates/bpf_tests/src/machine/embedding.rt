//! What `docs/EMBEDDING.md` shows, which are the lines here from `use` to the tests
//! (`tools/checks/commands.py` compares them).

use acdm_milestones::Milestone;
use bpf_helpers::Helper;
use bpf_machine::EbpfVmRaw;
use bpf_regstate::Length;
use std::alloc::Global;

// r1 is the moment, r2 is 5, helper 3 adds them.
const FIVE_LATER: [u8; 32] = [
    0xbf, 0x31, 0, 0, 0, 0, 0, 0, 0xb7, 2, 0, 0, 5, 0, 0, 0, 0x85, 0, 0, 0, 3, 0, 0, 0, 0x95, 0, 0,
    0, 0, 0, 0, 0,
];

// The moment five minutes after another, or the number of what was refused.
fn five_later(alloc: Global, later: Helper, record_bytes: &[u8]) -> Result<u64, u16> {
    let Ok(mut vm) = EbpfVmRaw::new(alloc) else {
        return Err(501);
    };
    if let Err(refused) = vm.register_helper(later) {
        return Err(refused.fault.code());
    }
    if let Err(refused) = vm.set_program(&FIVE_LATER, Length::L128) {
        return Err(refused.code());
    }
    match vm.execute_program(record_bytes, 29_000_580, Milestone::InBlock) {
        Ok(ended) => Ok(ended.r0),
        Err(refused) => Err(refused.code()),
    }
}

mod tests {
    use super::five_later;
    use crate::machine::planned;
    use crate::machine::vm::sum_helper;

    #[test]
    fn a_rule_runs_in_another_program(rt: HostRuntime) {
        let later = sum_helper(&rt, rt.alloc());
        let came = five_later(rt.alloc(), later, &planned(&rt));
        assert!(rt; came == Ok(29_000_585), "{came:?}");
    }
}
