//! Laws of lines. Each function does nothing when it runs; its contract is the law.

ghost use Rattle.std.specs.Prelude.{◌≡◌, ℕ, Bool, List, [], length, Some};
ghost use Rattle.bpf_helpers.specs.Promise.{Promise};
ghost use Rattle.acdm_step.specs.Commands.{History};
ghost use Rattle.acdm_step.specs.History.{Board, IsLegal};
ghost use Rattle.acdm_journal.specs.declared.judge.Clause.{Clause};
ghost use Rattle.acdm_journal.specs.Audit.{Continues, Breaks};
ghost use Rattle.acdm_step.specs.declared.entry.Entry.{Entry};
ghost use Rattle.acdm_journal.specs.declared.stated.Stated.{Stated};
ghost use Rattle.acdm_journal.specs.Text.{line_of, stated_in};
ghost use Rattle.acdm_journal.specs.Ranges.{IsStated};
ghost use Rattle.acdm_journal.specs.Reading.{stated_of};
ghost use Rattle.acdm_journal.specs.Whole.{AreReadable, IsTextOf, FirstFault, Saves};
ghost use Rattle.acdm_journal.specs.Whole.{GaveLegal, GaveFaulty, GaveOf};

/// A line states what it was written for, and nothing else.
pub fn a_line_is_read_as_it_was_written()
    // What a line may state is read back from it, and so is each entry in the ranges of its parts.
    ensures read_back { (s : Stated) → IsStated s → stated_of (line_of s) ≡ Some s }
    ensures entry { (e : Entry) → IsStated (stated_in e) →
        stated_of (line_of (stated_in e)) ≡ Some (stated_in e) }
    // No two have the same line.
    ensures one { (s t : Stated) → IsStated s → IsStated t → line_of s ≡ line_of t → s ≡ t }
{}

/// A line that goes on with a legal history breaks no clause.
pub fn a_line_goes_on_or_breaks_a_clause()
    ensures { (sigs : List (ℕ × Promise)) (J : History) (line : List ℕ) (board : Board) →
        Continues sigs J line board → (clause : Clause) → Breaks sigs J line clause → ⊥ }
{}

/// A text is that of one legal history, or it has one first fault, and never both. So a fault is
/// behind the longest legal front of its text.
pub fn a_text_has_one_verdict()
    ensures one_history { (sigs : List (ℕ × Promise)) (text : List ℕ) (J K : History) →
        IsTextOf sigs text J → IsTextOf sigs text K → J ≡ K }
    ensures no_fault { (sigs : List (ℕ × Promise)) (text : List ℕ) (J : History) (entry : ℕ)
        (clause : Clause) → IsTextOf sigs text J → FirstFault sigs text entry clause → ⊥ }
    ensures one_fault { (sigs : List (ℕ × Promise)) (text : List ℕ) (m n : ℕ) (c d : Clause) →
        FirstFault sigs text m c → FirstFault sigs text n d → (m ≡ n) × (c ≡ d) }
{}

/// What is saved of a legal history, by a writer that had nothing written before, an audit takes of
/// a reader that gives what was saved (`GaveOf`): it can answer the number of the entries, and no
/// fault. A history is saved (`Saves`) where `write_entry` answered `Ok` for each of its entries, the
/// oldest first.
pub fn what_is_written_is_taken()
    ensures count { (sigs : List (ℕ × Promise)) (J : History) (saved log log_after : List ℕ)
        (ended : Bool) (n : ℕ) → IsLegal sigs J → Saves J [] saved →
        GaveOf saved log log_after ended → GaveLegal sigs log log_after ended n → n ≡ length J }
    ensures no_fault { (sigs : List (ℕ × Promise)) (J : History) (saved log log_after : List ℕ)
        (ended : Bool) (entry : ℕ) (clause : Clause) → IsLegal sigs J → Saves J [] saved →
        GaveOf saved log log_after ended → GaveFaulty sigs log log_after ended entry clause → ⊥ }
    // Each of its lines may be read.
    ensures readable { (sigs : List (ℕ × Promise)) (J : History) (old new : List ℕ) →
        IsLegal sigs J → Saves J old new → AreReadable sigs J }
{}
