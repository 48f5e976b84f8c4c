//! What is true of loaded programs.

ghost use Rattle.std.specs.Prelude.{◌≡◌, ℕ, List, Option};
ghost use Rattle.acdm_milestones.specs.declared.milestone.Milestone.{Milestone};
ghost use Rattle.acdm_slots.specs.Loaded.{Loaded, loaded, place, program_in, with_program};
ghost use Rattle.acdm_slots.specs.declared.kind.Kind.{Kind};
ghost use Rattle.bpf_helpers.specs.Promise.{Promise};
ghost use Rattle.bpf_regstate.specs.declared.length.Length.{Length};
ghost use Rattle.bpf_verifier.specs.Verdict.{Verified};

/// Loaded programs are a function of milestone and kind: each slot has what the function gives, no
/// two have one place, and a change of the program in a slot is seen in that slot alone. It does
/// nothing when it runs.
pub fn places_are_apart()
    ensures given { (sigs : List (ℕ × Promise)) (record_length : Length) (f : Milestone → Kind
        → Option Verified) (m : Milestone) (kind : Kind) →
        program_in (loaded sigs record_length f) m kind ≡ f m kind }
    ensures apart { (m n : Milestone) (kind other : Kind) →
        place m kind ≡ place n other → (m ≡ n) × (kind ≡ other) }
    ensures there { (l : Loaded) (m : Milestone) (kind : Kind) (p : Option Verified) →
        program_in (with_program l m kind p) m kind ≡ p }
    ensures elsewhere { (l : Loaded) (m n : Milestone) (kind other : Kind) (p : Option Verified) →
        ((m ≡ n) × (kind ≡ other) → ⊥) →
        program_in (with_program l m kind p) n other ≡ program_in l n other }
{}
