//! What is true of each program.

ghost use Rattle.std.specs.Prelude.{◌≡◌, ℕ, ◌+◌, false, List, slice_get, Some};
ghost use Rattle.bpf_decode.specs.Encoding.{FitsSlot, IsProgram, is_tail_at, is_wide_at};
ghost use Rattle.bpf_decode.specs.declared.op.Op.{Op};

/// In each program the slot after a wide load is its tail, no other slot is one, and each slot has
/// registers and numbers that can be encoded. It does nothing when it runs.
pub fn program_is_well_formed()
    ensures first { (ops : List Op) → IsProgram ops → is_tail_at (slice_get ops 0) ≡ false }
    ensures tails { (ops : List Op) → IsProgram ops → (slot : ℕ) →
        is_tail_at (slice_get ops (slot + 1)) ≡ is_wide_at (slice_get ops slot) }
    ensures slots { (ops : List Op) → IsProgram ops → (slot : ℕ) (op : Op) →
        slice_get ops slot ≡ Some op → FitsSlot op }
{}
