//! The words that begin lines, and those that say what is asked or what a variable stands for.
ghost use Rattle.std.specs.Prelude.{◌≡◌};
ghost use Rattle.std.specs.List.{find};
ghost use Rattle.std.specs.Str.{bytes_eq};
ghost use Rattle.proof_stream.specs.Keywords.{spelling, keyword_of};

/// A fixed word of the log.
#[derive(Clone, Copy, Debug, PartialEq, Eq)]
pub(crate) enum Keyword {
    Record,
    Reach,
    Steady,
    Break,
    Nibble,
    At,
    Var,
    Input,
    Read,
    Clause,
    Cube,
    Step,
    Sat,
    Unsat,
    Spent,
    Broken,
    Runs,
    Breaks,
}

const KEYWORDS: [Keyword; 18] = [
    Keyword::Record,
    Keyword::Reach,
    Keyword::Steady,
    Keyword::Break,
    Keyword::Nibble,
    Keyword::At,
    Keyword::Var,
    Keyword::Input,
    Keyword::Read,
    Keyword::Clause,
    Keyword::Cube,
    Keyword::Step,
    Keyword::Sat,
    Keyword::Unsat,
    Keyword::Spent,
    Keyword::Broken,
    Keyword::Runs,
    Keyword::Breaks,
];

/// The keyword that is spelled so.
#[tactic(auto, unfolding(crate::specs::Keywords::keyword_of))]
pub(crate) fn keyword_of(word: &[u8]) -> Option<Keyword>
    ensures { result ≡ keyword_of word.now }
{
    among(&KEYWORDS, word)
}

/// The first of the keywords that is spelled so.
fn among(keywords: &[Keyword], word: &[u8]) -> Option<Keyword>
    ensures { result ≡ find (λ keyword. bytes_eq (spelling keyword) word.now) keywords.now }
{
    keywords
        .iter()
        .copied()
        .find(|keyword| spelling(*keyword).as_bytes() == word)
}

fn spelling(keyword: Keyword) -> &'static str
    ensures { result.now ≡ spelling keyword }
{
    match keyword {
        Keyword::Record => "record",
        Keyword::Reach => "reach",
        Keyword::Steady => "steady",
        Keyword::Break => "break",
        Keyword::Nibble => "nibble",
        Keyword::At => "at",
        Keyword::Var => "var",
        Keyword::Input => "input",
        Keyword::Read => "read",
        Keyword::Clause => "clause",
        Keyword::Cube => "cube",
        Keyword::Step => "step",
        Keyword::Sat => "sat",
        Keyword::Unsat => "unsat",
        Keyword::Spent => "spent",
        Keyword::Broken => "broken",
        Keyword::Runs => "runs",
        Keyword::Breaks => "breaks",
    }
}
