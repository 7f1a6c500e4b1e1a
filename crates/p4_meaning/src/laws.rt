//! What holds of the definitions themselves.
ghost use Rattle.std.specs.Prelude.{ℕ, List};
ghost use Rattle.p4_meaning.specs.Run.{Run};
ghost use Rattle.p4_program.specs.declared.outcome.Outcome.{Outcome};
ghost use Rattle.p4_program.specs.declared.bounds.Bounds.{Bounds};
ghost use Rattle.p4_program.specs.declared.input.Input.{Input};
ghost use Rattle.p4_program.specs.declared.program.Program.{Program};
ghost use Rattle.p4_program.specs.Input.{Bounded};

/// Every bounded input has a run, so that what is said of all its runs is said of some.
pub fn bounded_inputs_have_runs()
    ensures { (p : Program) (b : Bounds) (x : Input) → Bounded p b x
        → (outcome : Outcome) × (marks : List ℕ) × Run p b x outcome marks }
{}
