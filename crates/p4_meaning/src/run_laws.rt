//! What holds of the runs of typed programs, whatever the program.
ghost use Rattle.std.specs.Prelude.{◌≡◌, ◌↔◌, ℕ, Bool, List, [], Some, map, Contains};
ghost use Rattle.p4_program.specs.declared.outcome.Outcome.{Outcome};
ghost use Rattle.p4_program.specs.declared.outcome.Outcome.TheVariants.{Overrun};
ghost use Rattle.p4_meaning.specs.Runs.Acts.{After, Store};
ghost use Rattle.p4_meaning.specs.Runs.Contents.{Content};
ghost use Rattle.p4_meaning.specs.Runs.Courses.{Read, Makes};
ghost use Rattle.p4_meaning.specs.Runs.Expressions.{Reach, evaluate, AppliesNoTable};
ghost use Rattle.p4_meaning.specs.Runs.Run.{Run, RunOf, RunUnder, seen};
ghost use Rattle.p4_meaning.specs.Runs.Tables.{candidates_in};
ghost use Rattle.p4_program.specs.Winners.{Candidate, Wins, Winner, winner};
ghost use Rattle.p4_program.specs.BoundedInput.{BoundedInput};
ghost use Rattle.p4_program.specs.declared.bounds.Bounds.{Bounds};
ghost use Rattle.p4_program.specs.declared.typed.input.Input.{Input};
ghost use Rattle.p4_program.specs.Syntax.Callables.{CoreTable};
ghost use Rattle.p4_program.specs.Syntax.Lookup.{table_at, is_ordered};
ghost use Rattle.p4_program.specs.Syntax.Expressions.{CoreExpression};
ghost use Rattle.p4_program.specs.Syntax.Numbering.{statements_numbered};
ghost use Rattle.p4_program.specs.Syntax.Programs.{CoreProgram};
ghost use Rattle.p4_program.specs.WellFormed.Programs.{WellFormed};

/// Every input has a run under each fill, so that what is said of all its runs is said of some.
pub fn inputs_have_runs()
    ensures under { (p : CoreProgram) (b : Bounds) (x : Input) (words : ℕ → ℕ)
        → (outcome : Outcome) × (marks : List ℕ) × RunUnder p b x words outcome marks }
    ensures is_run { (p : CoreProgram) (b : Bounds) (x : Input) (words : ℕ → ℕ) (outcome : Outcome)
        (marks : List ℕ) → RunUnder p b x words outcome marks → Run p b x outcome marks }
{}

/// The values that unspecified reads give fix all else of a run.
pub fn one_run_for_reads()
    ensures { (p : CoreProgram) (b : Bounds) (x : Input) (reads : List Read) (o q : Outcome)
        (m n : List ℕ) → RunOf p b x reads o m → RunOf p b x reads q n → (o ≡ q) × (m ≡ n) }
{}

/// The plain function of the reads gives just the runs.
pub fn runs_are_computed()
    ensures { (p : CoreProgram) (b : Bounds) (x : Input) (reads : List Read) (outcome : Outcome)
        (marks : List ℕ) → RunOf p b x reads outcome marks
        ↔ (seen p b x reads ≡ Some (outcome, marks)) }
{}

/// A fill has no two runs of an input.
pub fn one_run_under_a_fill()
    ensures { (p : CoreProgram) (b : Bounds) (x : Input) (words : ℕ → ℕ) (o q : Outcome)
        (m n : List ℕ) → RunUnder p b x words o m → RunUnder p b x words q n → (o ≡ q) × (m ≡ n) }
{}

/// A run that overruns has begun nothing.
pub fn overruns_have_no_marks()
    ensures { (p : CoreProgram) (b : Bounds) (x : Input) (marks : List ℕ)
        → Run p b x Overrun marks → marks ≡ [] }
{}

/// A run begins statements that the program has.
pub fn marks_are_numbers()
    ensures { (p : CoreProgram) (b : Bounds) (x : Input) (outcome : Outcome) (marks : List ℕ)
        → Run p b x outcome marks
        → (n : ℕ) → Contains marks n → Contains (map (λ s. s.number) (statements_numbered p)) n }
{}

/// An expression that applies no table leaves the store and begins nothing.
pub fn expressions_leave_the_store()
    ensures { (Γ : Reach) (e : CoreExpression) → AppliesNoTable e
        → (store : Store) (reads : List Read) (marks : List ℕ) (after : After Content)
        → Makes (evaluate Γ e store) reads marks after → (after.store ≡ store) × (marks ≡ []) }
{}

/// For each key some entry wins or none matches, and the run takes that one.
pub fn a_winner_or_no_match()
    ensures { (ordered : Bool) (entries : List Candidate) (key : List ℕ)
        → Winner ordered entries key (winner ordered entries key) }
{}

/// Of the entries that a table has on a bounded input one wins at most.
pub fn one_winner_at_most()
    ensures { (p : CoreProgram) → WellFormed p → (b : Bounds) (x : Input) → BoundedInput p b x
        → (table : ℕ) (t : CoreTable) → table_at p table ≡ Some t → (key : List ℕ) (v w : Candidate)
        → Wins (is_ordered t) (candidates_in t.entries table x.entries) key v
        → Wins (is_ordered t) (candidates_in t.entries table x.entries) key w → v ≡ w }
{}
