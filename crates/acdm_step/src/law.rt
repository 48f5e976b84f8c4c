//! Laws of histories. Each function does nothing when it runs; its contract is the law.

ghost use Rattle.std.specs.Prelude.{◌≡◌, ℕ, List, ◌∷◌, ◌++◌, Some, true, false};
ghost use Rattle.acdm_record.specs.declared.field.Field.TheVariants.{Alerts};
ghost use Rattle.acdm_record.specs.Fields.{Fields, number_of};
ghost use Rattle.acdm_milestones.specs.declared.milestone.Milestone.{Milestone};
ghost use Rattle.bpf_helpers.specs.Promise.{Promise};
ghost use Rattle.acdm_slots.specs.declared.kind.Kind.{Kind};
ghost use Rattle.acdm_slots.specs.Loaded as loaded;
ghost use Rattle.acdm_step.specs.declared.entry.Entry.{Entry};
ghost use Rattle.acdm_step.specs.Programs.{Programs, Effect, effect_with};
ghost use Rattle.acdm_step.specs.Ran.{Ran, HasEffect};
ghost use Rattle.acdm_step.specs.Commands.{History, is_accepted, flight_of, told_milestone};
ghost use Rattle.acdm_step.specs.InSlots.{program_in, programs_of, slots_of};
ghost use Rattle.acdm_step.specs.Summaries.{flights, record_of, run_record_of};
ghost use Rattle.acdm_step.specs.History.{IsLegal, replay};

/// What a history computes of the programs of a report is what their runs end with.
pub fn programs_say_what_their_runs_end_with()
    // What is computed is what two runs say that end, which used the answers that are not left.
    ensures computed { (ps : Programs) (r : Fields) (moment m : ℕ) (answers : List ℕ) (s : Effect)
        (left : List ℕ) →
        effect_with ps r moment m answers ≡ Some (s, left) →
        (used : List ℕ) × (answers ≡ used ++ left) × HasEffect ps r moment m used s }
    // What two runs say that end is computed, and the answers that they did not use are left.
    ensures complete { (ps : Programs) (r : Fields) (moment m : ℕ) (used : List ℕ) (s : Effect) →
        HasEffect ps r moment m used s → (left : List ℕ)
        → effect_with ps r moment m (used ++ left) ≡ Some (s, left) }
    // In a legal history the programs of each accepted entry ran, and ended with exactly the
    // answers that the entry keeps.
    ensures legal { (sigs : List (ℕ × Promise)) (J : History) (e : Entry) → IsLegal sigs (e ∷ J)
        → is_accepted e.verdict ≡ true →
        Ran (programs_of J e.command) (run_record_of J e.command) e.moment
        (told_milestone e.command) e.answers }
{}

/// The programs in the slots of a board are those of the last accepted loads and unloads of its
/// history.
pub fn slots_are_asked_of_the_history()
    ensures { (sigs : List (ℕ × Promise)) (J : History) (m : Milestone) (kind : Kind) →
        loaded.program_in (slots_of sigs J) m kind ≡ program_in J m kind }
{}

/// A refused command changes nothing: no flight, no record, no alert word, no program in a slot, and
/// so not the board.
pub fn a_refused_command_changes_nothing()
    ensures flights { (J : History) (e : Entry) → is_accepted e.verdict ≡ false
        → flights (e ∷ J) ≡ flights J }
    ensures records { (J : History) (e : Entry) → is_accepted e.verdict ≡ false → (flight : ℕ)
        → record_of (e ∷ J) flight ≡ record_of J flight }
    ensures alerts { (J : History) (e : Entry) → is_accepted e.verdict ≡ false → (flight : ℕ)
        → number_of (record_of (e ∷ J) flight) Alerts ≡ number_of (record_of J flight) Alerts }
    ensures slots { (J : History) (e : Entry) → is_accepted e.verdict ≡ false → (m : Milestone)
        (kind : Kind) → program_in (e ∷ J) m kind ≡ program_in J m kind }
    ensures board { (sigs : List (ℕ × Promise)) (J : History) (e : Entry)
        → is_accepted e.verdict ≡ false → replay sigs (e ∷ J) ≡ replay sigs J }
{}
