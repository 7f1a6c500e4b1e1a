//! What holds of the runs of built programs: each input has one run, which begins every statement.
//! That a program is well-formed is known as its type knows it.
ghost use Rattle.std.specs.Prelude.{◌≡◌, ◌↔◌, ◌<◌, ◌≤◌, ◌⊎◌, ℕ, List, [], length, Contains};
ghost use Rattle.p4_program.specs.declared.bounds.Bounds.{Bounds};
ghost use Rattle.p4_program.specs.declared.outcome.Outcome.{Outcome};
ghost use Rattle.p4_program.specs.declared.typed.input.Input.{Input};
ghost use Rattle.p4_program.specs.declared.v1model.TheConstants.{PORT_END};
ghost use Rattle.p4_program.specs.BoundedInput.{BoundedInput};
ghost use Rattle.p4_program.specs.Built.{Built};
ghost use Rattle.p4_program.specs.Syntax.Numbering.{statements_numbered};
ghost use Rattle.p4_program.specs.Syntax.Programs.{CoreProgram};
ghost use Rattle.p4_program.specs.WellFormed.Programs.{WellFormed};
ghost use Rattle.p4_meaning.specs.declared.typed_test.Test.{Test};
ghost use Rattle.p4_meaning.specs.declared.verdict.Verdict.{Verdict};
ghost use Rattle.p4_meaning.specs.declared.verdict.Verdict.TheVariants.{Covered, Undecided};
ghost use Rattle.p4_meaning.specs.Test.{Agrees};
ghost use Rattle.p4_meaning.specs.Runs.BuiltRuns.{ComesTo, port_of, numbers_of, outcome_at, expected_at, FixesAll, MasksNothing};
ghost use Rattle.p4_meaning.specs.Runs.Courses.{Read};
ghost use Rattle.p4_meaning.specs.Runs.Good.{Steady, Good};
ghost use Rattle.p4_meaning.specs.Runs.Run.{Run, RunOf};
ghost use Rattle.p4_meaning.specs.Runs.Tests.{Holds, Tight};
ghost use Rattle.p4_meaning.specs.Runs.Verdicts.{Reachable, RightVerdict};

/// A run of a built program sends the packet to the port that ingress leaves, or drops it, and
/// begins each statement in order.
pub fn built_runs()
    ensures { (p : CoreProgram) → ∥ WellFormed p ∥₁ → Built p → (b : Bounds) (x : Input)
        (outcome : Outcome) (marks : List ℕ) → Run p b x outcome marks ↔ ComesTo p x outcome marks }
{}

/// It reads nothing that is unspecified.
pub fn built_runs_read_nothing()
    ensures { (p : CoreProgram) → ∥ WellFormed p ∥₁ → Built p → (b : Bounds) (x : Input)
        (reads : List Read) (outcome : Outcome) (marks : List ℕ)
        → RunOf p b x reads outcome marks → reads ≡ [] }
{}

/// So each input is steady, and each bounded one is good for each statement.
pub fn built_inputs()
    ensures steady { (p : CoreProgram) → ∥ WellFormed p ∥₁ → Built p → (b : Bounds) (x : Input)
        → Steady p b x }
    ensures good { (p : CoreProgram) → ∥ WellFormed p ∥₁ → Built p → (b : Bounds) (x : Input)
        (statement : ℕ) → Good p b x statement
        ↔ (BoundedInput p b x × Contains (numbers_of p) statement) }
{}

/// A test holds where it agrees with the one outcome, and is tight where it masks nothing.
pub fn built_tests()
    ensures hold { (p : CoreProgram) → ∥ WellFormed p ∥₁ → Built p → (b : Bounds) (t : Test)
        → Holds p b t ↔ (BoundedInput p b t.input
        × Agrees t.expected (outcome_at (port_of p) t.input.packet)) }
    ensures tight { (p : CoreProgram) → ∥ WellFormed p ∥₁ → Built p → (b : Bounds) (t : Test)
        → Tight p b t ↔ MasksNothing t.expected }
{}

/// The tests that hold and have a digit at each nibble are those of bounded inputs that expect what
/// ingress leaves. They are tight.
pub fn built_tests_expect()
    ensures expected { (p : CoreProgram) → ∥ WellFormed p ∥₁ → Built p → (b : Bounds) (t : Test)
        → Holds p b t → FixesAll t.expected
        → t.expected ≡ expected_at (port_of p) t.input.packet }
    ensures hold { (p : CoreProgram) → ∥ WellFormed p ∥₁ → Built p → (b : Bounds) (t : Test)
        → BoundedInput p b t.input → t.expected ≡ expected_at (port_of p) t.input.packet
        → Holds p b t }
    ensures tight { (p : CoreProgram) → ∥ WellFormed p ∥₁ → Built p → (b : Bounds) (t : Test)
        → t.expected ≡ expected_at (port_of p) t.input.packet → Tight p b t }
    ensures fixed { (p : CoreProgram) (t : Test)
        → t.expected ≡ expected_at (port_of p) t.input.packet → FixesAll t.expected }
{}

/// Each statement is reachable. What is right to say of it is that a test covers it, or nothing.
pub fn built_verdicts()
    ensures reachable { (p : CoreProgram) → ∥ WellFormed p ∥₁ → Built p → (b : Bounds)
        (statement : ℕ) → Reachable p b statement ↔ Contains (numbers_of p) statement }
    ensures verdicts { (p : CoreProgram) → ∥ WellFormed p ∥₁ → Built p → (b : Bounds)
        (tests : List Test) (statement : ℕ) (v : Verdict) → Contains (numbers_of p) statement
        → RightVerdict p b tests statement v
        → ((test : ℕ) × (v ≡ Covered test)) ⊎ (v ≡ Undecided) }
{}

/// The numbers are those from 1 on, and the port has nine bits.
pub fn built_numbers()
    ensures statements { (p : CoreProgram) → ∥ WellFormed p ∥₁ → (n : ℕ) → Contains (numbers_of p) n
        ↔ ((1 ≤ n) × (n ≤ length (statements_numbered p))) }
    ensures port { (p : CoreProgram) → ∥ WellFormed p ∥₁ → Built p → port_of p < PORT_END }
{}

/// A built program has no table, so that no entry can be put into one.
pub fn built_programs_have_no_tables()
    ensures tables { (p : CoreProgram) → ∥ WellFormed p ∥₁ → Built p → p.tables ≡ [] }
    ensures entries { (p : CoreProgram) → ∥ WellFormed p ∥₁ → Built p → (b : Bounds) (x : Input)
        → BoundedInput p b x → x.entries ≡ [] }
{}
