//! The law of what `verify` answers. The function does nothing when it runs; its contract is the
//! law.

ghost use Rattle.std.specs.Prelude.{◌≡◌, ℕ, ◌<◌, ◌≤◌, List, Some, IsTrue, length, slice_get};
ghost use Rattle.bpf_decode.specs.declared.op.Op.{Op};
ghost use Rattle.bpf_helpers.specs.Promise.{is_question};
ghost use Rattle.bpf_semantics.specs.Machine.{Machine, Asks, action};
ghost use Rattle.bpf_semantics.specs.Runs.{IsTrapped};
ghost use Rattle.bpf_regstate.specs.Lengths.{bytes_in};
ghost use Rattle.bpf_regstate.specs.Edges.{edges};
ghost use Rattle.bpf_regstate.specs.Holds.{EdgesHold, HoldsAt};
ghost use Rattle.bpf_regstate.specs.Shape.{Shape};
ghost use Rattle.bpf_regstate.specs.States.{instruction_count, state_at};
ghost use Rattle.bpf_verifier.specs.Runs.{GoesToItsEnd, Leads};
ghost use Rattle.bpf_verifier.specs.Verdict.{Verified};

/// What `verify` answers never goes wrong, on any record of its length, at any moment of 32 bits and
/// any milestone from 1 to 16, whatever promised answers its calls are given: of each machine that
/// it leads to, what is known at its slot is true (`held`), each next machine is held along an edge
/// of its instruction (`steps`), it isn't trapped (`free`), it asks only what may be asked
/// (`asks`), it was reached in fewer steps than the program has instructions (`few`), with at most
/// as many answers as steps (`answers`), and the run goes on to an exit (`ends`).
pub fn checked_programs_never_go_wrong()
    ensures held { (v : Verified) (record_bytes : List ℕ) (moment milestone : ℕ) (answers : List ℕ)
        (n : ℕ) (m : Machine) →
        Leads v record_bytes moment milestone answers n m
        → HoldsAt (state_at (bytes_in v.record_length) v.ops v.sigs m.slot) m }
    ensures steps { (v : Verified) (record_bytes : List ℕ) (moment milestone : ℕ) (answers : List ℕ)
        (n : ℕ) (m : Machine) →
        Leads v record_bytes moment milestone answers n m → (op : Op) (s : Shape)
        → slice_get v.ops m.slot ≡ Some op →
        state_at (bytes_in v.record_length) v.ops v.sigs m.slot ≡ Some s →
        EdgesHold v.sigs (edges (bytes_in v.record_length) v.sigs m.slot op s) m (action v.ops v.sigs record_bytes m) }
    ensures free { (v : Verified) (record_bytes : List ℕ) (moment milestone : ℕ) (answers : List ℕ)
        (n : ℕ) (m : Machine) →
        Leads v record_bytes moment milestone answers n m
        → IsTrapped v.sigs (action v.ops v.sigs record_bytes m) → ⊥ }
    ensures asks { (v : Verified) (record_bytes : List ℕ) (moment milestone : ℕ) (answers : List ℕ)
        (n : ℕ) (m : Machine) →
        Leads v record_bytes moment milestone answers n m → (helper : ℕ) (passed : List ℕ) →
        action v.ops v.sigs record_bytes m ≡ Asks helper passed →
        IsTrue (is_question v.sigs helper passed) }
    ensures few { (v : Verified) (record_bytes : List ℕ) (moment milestone : ℕ) (answers : List ℕ)
        (n : ℕ) (m : Machine) →
        Leads v record_bytes moment milestone answers n m → n < instruction_count v.ops }
    ensures answers { (v : Verified) (record_bytes : List ℕ) (moment milestone : ℕ)
        (answers : List ℕ) (n : ℕ) (m : Machine) →
        Leads v record_bytes moment milestone answers n m → length answers ≤ n }
    ensures ends { (v : Verified) (record_bytes : List ℕ) (moment milestone : ℕ) (answers : List ℕ)
        (n : ℕ) (m : Machine) →
        Leads v record_bytes moment milestone answers n m
        → GoesToItsEnd v record_bytes moment milestone answers }
{}
