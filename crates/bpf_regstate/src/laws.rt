//! Laws of the definitions. Each function does nothing when it runs; its contract is the law.

ghost use Rattle.std.specs.Prelude.{◌≡◌, ℕ, ◌<◌, ◌≤◌, ◌++◌, ◌+◌, ◌-◌, ◌*◌, ◌^◌, Bool, true, false};
ghost use Rattle.std.specs.Prelude.{List, Option, Some, None, IsTrue, length, slice_get};
ghost use Rattle.bpf_decode.specs.Words.{arith_word, comparison, extended, holds, negated, ordered};
ghost use Rattle.bpf_decode.specs.declared.op.Bytes.{Bytes};
ghost use Rattle.bpf_decode.specs.declared.op.Code.{Code};
ghost use Rattle.bpf_decode.specs.declared.op.Condition.{Condition};
ghost use Rattle.bpf_decode.specs.declared.op.Op.{Op};
ghost use Rattle.bpf_decode.specs.declared.op.Operand.{Operand};
ghost use Rattle.bpf_decode.specs.declared.op.ByteOrder.{ByteOrder};
ghost use Rattle.bpf_decode.specs.declared.op.Part.{Part};
ghost use Rattle.bpf_decode.specs.declared.op.Size.{Size};
ghost use Rattle.bpf_decode.specs.declared.op.Width.{Width};
ghost use Rattle.bpf_helpers.specs.declared.range.Range.{Range};
ghost use Rattle.bpf_decode.specs.Encoding.{FitsSlot};
ghost use Rattle.bpf_helpers.specs.Promise.{Promise, are_well_formed};
ghost use Rattle.bpf_semantics.specs.Machine.{Machine, act_on, action, is_entry, operand, register};
ghost use Rattle.bpf_semantics.specs.Machine.{size_type, start};
ghost use Rattle.bpf_semantics.specs.Runs.{IsTrapped, Reaches, RunEnds};
ghost use Rattle.bpf_regstate.specs.Soundness.{IsAcceptedRun};
ghost use Rattle.std.specs.Int.{byte_len, from_le_bytes};
ghost use Rattle.bpf_regstate.specs.Shape.{IsRange, IsShape, Shape, known};
ghost use Rattle.bpf_regstate.specs.Edges.{edges};
ghost use Rattle.bpf_regstate.specs.Holds.{AreBytes, EdgeHolds, EdgesHold, Holds, HoldsAt, In};
ghost use Rattle.bpf_regstate.specs.Holds.{IsMachine, IsOperand, Leaves, SomeHolds};
ghost use Rattle.bpf_regstate.specs.Effect.{arith_result, extend_range, negate_range, order_result};
ghost use Rattle.bpf_regstate.specs.Faults.{faults, is_uninit, least, operand_uninit};
ghost use Rattle.bpf_regstate.specs.Narrowing.{narrowed, refined};
ghost use Rattle.bpf_regstate.specs.Ranges.{AreLeastOnes, filled};
ghost use Rattle.bpf_regstate.specs.Joins.{joined};
ghost use Rattle.bpf_regstate.specs.States.{Accepts, IsFirstFault, first_fault, instruction_count, into, join_all, sends, start_shape};
ghost use Rattle.bpf_regstate.specs.States.{state_at};
ghost use Rattle.bpf_regstate.specs.Pass.{with_edges, so_far};

/// The range of the results of an operation on the words of ranges has each result: arithmetic on
/// two operands, negation, sign extension, byte order and loads. The ones in a row that end a range
/// of OR and XOR are the least that are not below both ends.
pub fn results_stay_in_range()
    ensures arithmetic { (code : Code) (w : Width) (a b : Range) (x y : ℕ) → IsRange a → IsRange b
        → In a x → In b y →
        In (arith_result code w a b) (arith_word code w x y) }
    ensures negation { (w : Width) (a : Range) (x : ℕ) → In a x
        → In (negate_range w a) (negated w x) }
    ensures extension { (w : Width) (part : Part) (b : Range) (x : ℕ) → IsRange b → In b x
        → In (extend_range w part b) (extended w part x) }
    ensures order { (order : ByteOrder) (n : Bytes) (a : Range) (x : ℕ) → In a x
        → In (order_result order n a) (ordered order n x) }
    ensures loads { (size : Size) (bytes : List ℕ) → AreBytes bytes →
        In (record { lo = 0; hi = 2 ^ (8 * byte_len (size_type size)) - 1 })
        (from_le_bytes (size_type size) bytes) }
    ensures ones { (n : ℕ) → n < 2 ^ 64 → AreLeastOnes n (filled n) }
    ensures ranges { (code : Code) (w : Width) (a b : Range) → IsRange a → IsRange b
        → IsRange (arith_result code w a b) }
{}

/// What a comparison leaves of two ranges has the two words, and along an edge of a conditional
/// jump there is a state that holds the machine that takes this edge.
pub fn narrowing_loses_no_word()
    ensures words { (condition : Condition) (taken : Bool) (w : Width) (a b : Range) (x y : ℕ)
        → In a x → In b y →
        comparison condition w x y ≡ taken → Leaves (narrowed condition taken a b) x y }
    ensures states { (w : Width) (condition : Condition) (dst : ℕ) (from : Operand) (taken : Bool)
        (s : Shape) (m : Machine) (x y : ℕ) →
        IsShape s → IsOperand from → Holds s m → is_uninit (known s dst) ≡ false
        → operand_uninit s from ≡ false →
        register m dst ≡ Some x → operand m from ≡ Some y → holds condition w x y ≡ taken →
        HoldsAt (refined w condition dst from taken s) m }
{}

/// A join holds each machine that one of its parts holds.
pub fn joins_lose_no_machine()
    ensures first { (s t : Shape) (m : Machine) → Holds s m → Holds (joined s t) m }
    ensures second { (s t : Shape) (m : Machine) → Holds t m → Holds (joined s t) m }
    ensures all { (ss : List Shape) (m : Machine) → SomeHolds m ss → HoldsAt (join_all ss) m }
{}

/// From a machine that a state holds, an instruction without a fault does not get stuck, and each
/// machine that it leads to is held along one of its edges.
pub fn effects_hold_their_steps()
    ensures { (ops : List Op) (sigs : List (ℕ × Promise)) (record_bytes : List ℕ)
        → IsTrue (are_well_formed sigs) → length record_bytes < 2 ^ 32 →
        AreBytes record_bytes → (m : Machine) (s : Shape) (op : Op) → FitsSlot op → IsShape s
        → IsMachine m → Holds s m → is_entry (Some op) ≡ true →
        least (faults (length record_bytes) ops sigs m.slot op (Some s)) ≡ None →
        EdgesHold sigs (edges (length record_bytes) sigs m.slot op s) m
        (act_on ops sigs record_bytes m op) }
{}

/// A machine that an edge from a smaller slot holds is held by the state at the edge's end.
pub fn states_hold_their_edges()
    ensures { (record_length : ℕ) (ops : List Op) (sigs : List (ℕ × Promise)) (slot to : ℕ)
        (m : Machine) → slot < to →
        EdgeHolds m to (sends record_length ops sigs slot (slice_get ops slot)
        (state_at record_length ops sigs slot)) →
        HoldsAt (state_at record_length ops sigs to) m }
{}

/// The state at a slot is what one pass forward over the slots brings to it: it begins with the
/// start at slot 0 and nothing elsewhere, each slot sends its edges to what is there, and at a
/// slot's turn its state is there.
pub fn one_pass_is_enough()
    ensures start { (record_length : ℕ) (ops : List Op) (sigs : List (ℕ × Promise)) →
        so_far record_length ops sigs 0 0 ≡ Some (start_shape record_length) }
    ensures empty { (record_length : ℕ) (ops : List Op) (sigs : List (ℕ × Promise)) (to : ℕ) →
        so_far record_length ops sigs 0 (to + 1) ≡ None }
    ensures step { (record_length : ℕ) (ops : List Op) (sigs : List (ℕ × Promise)) (slot to : ℕ) →
        so_far record_length ops sigs (slot + 1) to
        ≡ with_edges (so_far record_length ops sigs slot to)
        (into to (sends record_length ops sigs slot (slice_get ops slot)
        (state_at record_length ops sigs slot))) }
    ensures turn { (record_length : ℕ) (ops : List Op) (sigs : List (ℕ × Promise)) (slot : ℕ) →
        so_far record_length ops sigs slot slot ≡ state_at record_length ops sigs slot }
{}

/// The first fault of a program is computed by asking one slot after the other: where none is found
/// the program is accepted, and where it is accepted none is found; what is found is the least slot
/// that has a fault, with its least number. So a history can say what becomes of a program that is
/// judged anew.
pub fn the_first_fault_is_found()
    ensures none { (record_length : ℕ) (ops : List Op) (sigs : List (ℕ × Promise)) →
        first_fault record_length ops sigs ≡ None → Accepts record_length ops sigs }
    ensures accepted { (record_length : ℕ) (ops : List Op) (sigs : List (ℕ × Promise)) →
        Accepts record_length ops sigs → first_fault record_length ops sigs ≡ None }
    ensures found { (record_length : ℕ) (ops : List Op) (sigs : List (ℕ × Promise))
        (slot code : ℕ) → first_fault record_length ops sigs ≡ Some (slot, code)
        → IsFirstFault record_length ops sigs slot code }
{}

/// An accepted program never goes wrong, on any record of bytes, at any moment and milestone,
/// whatever promised answers its calls are given: each machine that it reaches from the start is
/// held by the state at its slot and isn't trapped, and it was reached in fewer steps than the
/// program has instructions. With some more promised answers each run that was begun ends at an
/// exit, which is at most the step of that number.
pub fn accepted_programs_never_trap()
    ensures held { (ops : List Op) (sigs : List (ℕ × Promise)) (record_bytes : List ℕ)
        (moment milestone : ℕ) → IsAcceptedRun ops sigs record_bytes moment milestone →
        (answers : List ℕ) (n : ℕ) (end : Machine)
        → Reaches ops sigs record_bytes (start (length record_bytes) moment milestone) answers n end
        →
        HoldsAt (state_at (length record_bytes) ops sigs end.slot) end }
    ensures free { (ops : List Op) (sigs : List (ℕ × Promise)) (record_bytes : List ℕ)
        (moment milestone : ℕ) → IsAcceptedRun ops sigs record_bytes moment milestone →
        (answers : List ℕ) (n : ℕ) (end : Machine)
        → Reaches ops sigs record_bytes (start (length record_bytes) moment milestone) answers n end
        →
        IsTrapped sigs (action ops sigs record_bytes end) → ⊥ }
    ensures few { (ops : List Op) (sigs : List (ℕ × Promise)) (record_bytes : List ℕ)
        (moment milestone : ℕ) → IsAcceptedRun ops sigs record_bytes moment milestone →
        (answers : List ℕ) (n : ℕ) (end : Machine)
        → Reaches ops sigs record_bytes (start (length record_bytes) moment milestone) answers n end
        →
        n < instruction_count ops }
    ensures ends { (ops : List Op) (sigs : List (ℕ × Promise)) (record_bytes : List ℕ)
        (moment milestone : ℕ) → IsAcceptedRun ops sigs record_bytes moment milestone →
        (answers : List ℕ) (n : ℕ) (m : Machine)
        → Reaches ops sigs record_bytes (start (length record_bytes) moment milestone) answers n m →
        (more : List ℕ) × (r0 : ℕ) × (k : ℕ) × (k ≤ instruction_count ops)
        × RunEnds ops sigs record_bytes moment milestone (answers ++ more) r0 k }
{}
