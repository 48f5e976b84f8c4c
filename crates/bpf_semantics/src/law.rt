//! Laws of runs. Each function does nothing when it runs; its contract is the law.

ghost use Rattle.std.specs.Prelude.{◌≡◌, ℕ, ◌<◌, List, ◌++◌, length, Option, Some};
ghost use Rattle.bpf_decode.specs.declared.op.Op.{Op};
ghost use Rattle.bpf_helpers.specs.Promise.{Promise};
ghost use Rattle.bpf_semantics.specs.Runs.{RunEnds, result_of};

/// The answers of helpers decide how a run ends, and the result that is computed from a list of
/// answers is that of the run that ends with the first of them: r0 at the exit, and the answers
/// that this run did not use.
pub fn answers_decide_a_run()
    // What is computed is r0 of a run that ends, which used the answers that are not left.
    ensures computed { (ops : List Op) (sigs : List (ℕ × Promise)) (record_bytes : List ℕ)
        (moment milestone : ℕ)
        (answers : List ℕ) (r0 : ℕ) (left : List ℕ) →
        result_of ops sigs record_bytes moment milestone answers ≡ Some (r0, left) →
        (used : List ℕ) × (n : ℕ) × (answers ≡ used ++ left)
        × RunEnds ops sigs record_bytes moment milestone used r0 n }
    // Each run that ends is computed, and what it did not use is left.
    ensures complete { (ops : List Op) (sigs : List (ℕ × Promise)) (record_bytes : List ℕ)
        (moment milestone : ℕ)
        (used : List ℕ) (r0 n : ℕ) → RunEnds ops sigs record_bytes moment milestone used r0 n →
        (left : List ℕ) → result_of ops sigs record_bytes moment milestone (used ++ left)
        ≡ Some (r0, left) }
    // Two runs that end, over the first of the same answers, are one: in the answers used, in steps
    // and in r0.
    ensures decided { (ops : List Op) (sigs : List (ℕ × Promise)) (record_bytes : List ℕ)
        (moment milestone : ℕ)
        (used others left right : List ℕ) (r0 s0 n k : ℕ) → used ++ left ≡ others ++ right →
        RunEnds ops sigs record_bytes moment milestone used r0 n
        → RunEnds ops sigs record_bytes moment milestone others s0 k →
        (used ≡ others) × (n ≡ k) × (r0 ≡ s0) }
    // A step uses one answer at most, and the exit none.
    ensures few { (ops : List Op) (sigs : List (ℕ × Promise)) (record_bytes : List ℕ)
        (moment milestone : ℕ)
        (used : List ℕ) (r0 n : ℕ) → RunEnds ops sigs record_bytes moment milestone used r0 n
        → length used < n }
{}
