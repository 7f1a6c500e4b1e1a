//! What holds of the rules, as contracts of functions that do nothing.

ghost use Rattle.std.specs.Prelude.{◌≡◌, ◌⊎◌, ℕ, List, ◌∷◌, ◌++◌, Ok, Err};
ghost use Rattle.p4_tree.specs.declared.declarations.Source.{Source};
ghost use Rattle.p4_program.specs.Syntax.Programs.{CoreProgram};
ghost use Rattle.p4_rules.specs.declared.faults.Fault.{Fault};
ghost use Rattle.p4_rules.specs.Faults.{Decides, pass_number, refusal_of, earlier, least, told};
ghost use Rattle.tg_base.specs.declared.place.Refusal.{Refusal};
ghost use Rattle.tg_base.specs.declared.place.Code.TheVariants.{Limit, Name, Constant, Typing, Unsupported, Package};
ghost use Rattle.p4_rules.specs.Typed.{checked, Elaborates, Faults, IsRefusedIn};
ghost use Rattle.p4_rules.specs.Examples.{skeleton, empty, too_large, no_field, another_type, truncated, too_wide};
ghost use Rattle.p4_rules.specs.ExampleProgram.{skeleton_program};
ghost use Rattle.p4_rules.specs.ExampleFaults.{RefusedAt};

/// A source has at most one typed program.
pub fn at_most_one_program()
    ensures { (s : Source) (p q : CoreProgram) → Elaborates s p → Elaborates s q → p ≡ q }
{}

/// No source has both a typed program and a fault.
pub fn never_both()
    ensures { (s : Source) (p : CoreProgram) (fault : Fault) → Elaborates s p → ¬ Faults s fault }
{}

/// Each source has a typed program or a fault.
pub fn a_program_or_a_fault()
    ensures { (s : Source) →
        ((p : CoreProgram) × Elaborates s p) ⊎ ((fault : Fault) × Faults s fault) }
{}

/// Each source has a typed program, or a refusal of it decides.
pub fn a_program_or_a_refusal()
    ensures { (s : Source) →
        ((p : CoreProgram) × Elaborates s p)
        ⊎ ((pass : ℕ) × (refusal : Refusal) × IsRefusedIn s pass refusal) }
{}

/// No source has both a typed program and a refusal that decides.
pub fn no_refusal_of_a_program()
    ensures { (s : Source) (p : CoreProgram) (pass : ℕ) (refusal : Refusal) →
        Elaborates s p → ¬ IsRefusedIn s pass refusal }
{}

/// At most one refusal of a source decides, in one pass.
pub fn at_most_one_refusal()
    ensures { (s : Source) (pass other : ℕ) (refusal second : Refusal) →
        IsRefusedIn s pass refusal → IsRefusedIn s other second
        → (pass ≡ other) × (refusal ≡ second) }
{}

/// What is told of a source is its typed program, or the fault whose refusal decides.
pub fn what_is_told()
    ensures right { (s : Source) (p : CoreProgram) → told (checked s) ≡ Ok p → Elaborates s p }
    ensures wrong { (s : Source) (fault : Fault) → told (checked s) ≡ Err fault →
        IsRefusedIn s (pass_number fault.pass) (refusal_of fault) }
{}

/// The least of some faults decides, and it alone.
pub fn the_least_decides()
    ensures decides { (f : Fault) (fs : List Fault) →
        Decides (f ∷ fs) (pass_number (least f fs).pass) (refusal_of (least f fs)) }
    ensures alone { (f : Fault) (fs : List Fault) (pass : ℕ) (refusal : Refusal) →
        Decides (f ∷ fs) pass refusal →
        (pass ≡ pass_number (least f fs).pass) × (refusal ≡ refusal_of (least f fs)) }
{}

/// The least of two lists joined is the earlier of the two least.
pub fn the_least_of_two_lists()
    ensures { (f g : Fault) (more others : List Fault) →
        least f (more ++ g ∷ others) ≡ earlier (least f more) (least g others) }
{}

/// The skeleton of the switch has its typed program.
#[tactic(auto, using(crate::proofs::ExampleProgramLaws::skeleton_elaborates))]
pub fn the_skeleton_is_typed()
    ensures { Elaborates skeleton skeleton_program }
{}

/// One source for each code that these passes have, refused with it at its place.
#[tactic(auto, using(crate::proofs::ExampleFaults::empty_refused, crate::proofs::ExampleFaults::too_large_refused, crate::proofs::ExampleFaults::no_field_refused, crate::proofs::ExampleFaults::another_type_refused, crate::proofs::ExampleFaults::truncated_refused, crate::proofs::ExampleFaults::too_wide_refused))]
pub fn each_code_has_a_source()
    ensures limit { RefusedAt too_wide Limit 4 26 }
    ensures name { RefusedAt no_field Name 11 7 }
    ensures constant { RefusedAt too_large Constant 11 18 }
    ensures typing { RefusedAt another_type Typing 11 18 }
    ensures unsupported { RefusedAt truncated Unsupported 11 5 }
    ensures package { RefusedAt empty Package 1 1 }
{}
