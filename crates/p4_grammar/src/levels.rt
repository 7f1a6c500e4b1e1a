//! The levels of operators, and the operator that a level begins with.

ghost use Rattle.std.specs.Prelude.{◌≡◌, ℕ, Some, IsSome, IsTrue, MatchOption};
ghost use Rattle.p4_grammar.specs.Ahead.{Begins};
ghost use Rattle.p4_grammar.specs.Expressions.{operator_of};
ghost use Rattle.p4_grammar.specs.Levels.{all_levels, has_operator_form, level_form, operator_word, tighter, LevelEnds, OperatorStands};

use crate::cursor::Cursor;
use p4_lexer::{Sign, Word};
use p4_tree::Operator;
use tg_base::Span;

/// A level of operators, which stand in a row with their operands.
#[derive(Clone, Copy, Drop)]
pub(crate) enum Level {
    Products,
    Sums,
    Shifts,
    Conjunctions,
    Exclusions,
    Disjunctions,
    Orders,
    Equalities,
    Ands,
    Ors,
}

/// All levels, from the tightest on.
pub(crate) fn all_levels() -> &'static [Level]
    ensures { result.now ≡ all_levels }
{
    &[
        Level::Products,
        Level::Sums,
        Level::Shifts,
        Level::Conjunctions,
        Level::Exclusions,
        Level::Disjunctions,
        Level::Orders,
        Level::Equalities,
        Level::Ands,
        Level::Ors,
    ]
}

/// The levels that stand tighter than this one.
pub(crate) fn tighter(level: Level) -> &'static [Level]
    ensures { result.now ≡ tighter level }
{
    let count = match level {
        Level::Products => 0,
        Level::Sums => 1,
        Level::Shifts => 2,
        Level::Conjunctions => 3,
        Level::Exclusions => 4,
        Level::Disjunctions => 5,
        Level::Orders => 6,
        Level::Equalities => 7,
        Level::Ands => 8,
        Level::Ors => 9,
    };
    &all_levels()[..count]
}

/// Enters a level, and reads the operator that it begins with.
pub(crate) fn operator(cursor: &mut Cursor, level: Level) -> Option<(Operator, Span)>
    requires { Begins (level_form level) cursor.old }
    ensures { MatchOption result (LevelEnds cursor.old cursor.new)
        (λ o. OperatorStands level o.0 o.1 cursor.old cursor.new) }
{
    cursor.enter()?;
    enter_operator(cursor, level);
    let token = cursor.take();
    Some((operator_of(&token.word), token.span))
}

/// Enters the form of a level's operator, if it is one.
fn enter_operator(cursor: &mut Cursor, level: Level)
    requires { IsTrue (has_operator_form level) → (form : ℕ) × Begins form cursor.old }
    ensures { cursor.new ≡ operator_word (has_operator_form level) cursor.old }
{
    if has_operator_form(level) {
        cursor.enter();
    }
}

/// Whether the operators of a level are a form of their own.
fn has_operator_form(level: Level) -> bool
    ensures { result ≡ has_operator_form level }
{
    match level {
        Level::Products | Level::Sums | Level::Shifts | Level::Orders | Level::Equalities => true,
        Level::Conjunctions | Level::Exclusions | Level::Disjunctions | Level::Ands | Level::Ors =>
            false,
    }
}

/// The operator that a word is.
fn operator_of(word: &Word) -> Operator
    requires { IsSome (operator_of word.now) }
    ensures { operator_of word.now ≡ Some result }
{
    match word {
        Word::Sign(sign) => operator_of_sign(*sign),
        _ => unreachable!(),
    }
}

fn operator_of_sign(sign: Sign) -> Operator
    requires { IsSome (operator_of (Word.Sign sign)) }
    ensures { operator_of (Word.Sign sign) ≡ Some result }
{
    match sign {
        Sign::Star => Operator::Times,
        Sign::Slash => Operator::Divide,
        Sign::Percent => Operator::Remainder,
        Sign::Plus => Operator::Plus,
        Sign::Minus => Operator::Minus,
        Sign::SaturatingPlus => Operator::SaturatingPlus,
        Sign::SaturatingMinus => Operator::SaturatingMinus,
        Sign::Concat => Operator::Concat,
        Sign::ShiftLeft => Operator::ShiftLeft,
        Sign::ShiftRight => Operator::ShiftRight,
        Sign::Ampersand => Operator::BitAnd,
        Sign::Caret => Operator::BitXor,
        Sign::Bar => Operator::BitOr,
        Sign::Less => Operator::Less,
        Sign::AtMost => Operator::AtMost,
        Sign::Greater => Operator::Greater,
        Sign::AtLeast => Operator::AtLeast,
        Sign::Equal => Operator::Equal,
        Sign::NotEqual => Operator::NotEqual,
        Sign::And => Operator::And,
        Sign::Or => Operator::Or,
        _ => unreachable!(),
    }
}
