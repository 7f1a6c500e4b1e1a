//! Laws of sources and of the texts, each the contract of a function that does nothing: a source has one
//! program or one refusal, and two things that were found and have one text are one.
ghost use Rattle.std.specs.Prelude.{◌≡◌, ℕ, ◌^◌, ◌<◌, List, All};
ghost use Rattle.tg_base.specs.declared.desk.Out.{Out};
ghost use Rattle.tg_base.specs.declared.desk.Out.TheVariants as out;
ghost use Rattle.p4_program.specs.declared.program.Program.{Program};
ghost use Rattle.p4_meaning.specs.declared.test.Test.{Test};
ghost use Rattle.tg_base.specs.declared.place.Refusal.{Refusal};
ghost use Rattle.testgen_engine.specs.Findings.{Findings, AreRight, text_of};
ghost use Rattle.testgen_engine.specs.Skeleton.{StandsFor, IsRefused};
ghost use Rattle.testgen_engine.specs.Telling.{TestFits, FindingsFit, SameReport, SameTest, SameFindings};
ghost use Rattle.testgen_engine.specs.TestText.{test_text};

/// No source both has a program and is refused.
pub fn no_source_is_refused_and_built()
    ensures { (bytes : List ℕ) (p : Program) (refusal : Refusal)
        → StandsFor bytes p → IsRefused bytes refusal → ⊥ }
{}

/// A source has one program.
pub fn sources_fix_programs()
    ensures { (bytes : List ℕ) (p q : Program) → StandsFor bytes p → StandsFor bytes q → p ≡ q }
{}

/// A source is refused in one way.
pub fn refusals_are_fixed()
    ensures { (bytes : List ℕ) (refusal other : Refusal)
        → IsRefused bytes refusal → IsRefused bytes other → refusal ≡ other }
{}

/// A report tells the bounds, the places of the statements, the verdicts, how many tests there are,
/// and the places of the undecided nibbles of each test.
pub fn reports_tell_apart()
    ensures { (f g : Findings) → FindingsFit f → FindingsFit g
        → text_of f out.Report ≡ text_of g out.Report → SameReport f g }
{}

/// The text of a test tells its number, its credits, its input and what it expects, but not which of
/// the nibbles that may have any digit are undecided.
pub fn tests_tell_apart()
    ensures { (p q : Program) (number other : ℕ) (credits others : List ℕ) (t u : Test)
        → number < 2 ^ 32 → other < 2 ^ 32
        → All (λ credit. credit < 2 ^ 32) credits → All (λ credit. credit < 2 ^ 32) others
        → TestFits t → TestFits u → test_text p number credits t ≡ test_text q other others u
        → SameTest number other credits others t u }
{}

/// All outputs together tell all that was found, but what the statements of the program do.
pub fn outputs_fix_findings()
    ensures { (f g : Findings) → FindingsFit f → FindingsFit g
        → ((out : Out) → text_of f out ≡ text_of g out) → SameFindings f g }
{}

/// Right findings fit, so the laws above suppose nothing more of them.
pub fn right_findings_fit()
    ensures { (f : Findings) → AreRight f → FindingsFit f }
{}

/// So two calls that finish and print the same have found the same: the headline says that what was
/// found is right, and this law supposes nothing more.
pub fn right_outputs_fix_findings()
    ensures { (f g : Findings) → AreRight f → AreRight g
        → ((out : Out) → text_of f out ≡ text_of g out) → SameFindings f g }
{}
