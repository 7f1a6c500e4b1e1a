//! The keys and key sets of a source, along its derivation.

ghost use Rattle.std.specs.Prelude.{◌≡◌, ◌∷◌, Some, IfOk, IsTrue};
ghost use Rattle.p4_tree.specs.declared.keys.KeySetKind.TheVariants.{One};
ghost use Rattle.p4_grammar.specs.declared.symbols.TheConstants.{KEY_PARENTHESIS, POSTFIX_PARTS, KEY_PARENTHESIS_REST, KEY_PARENTHESIS_TAIL, KEY_SET, MASK, OPERATIONS, SIMPLE_KEY};
ghost use Rattle.p4_grammar.specs.Words.{terminal_of};
ghost use Rattle.p4_grammar.specs.Ahead.{Begins, IsWord, below, after};
ghost use Rattle.p4_grammar.specs.Parses.{Parse, all_three, both, option_map};
ghost use Rattle.p4_grammar.specs.Expressions.{operations, parts, with_parts};
ghost use Rattle.p4_grammar.specs.Keys.{is_pair, is_plain_key, key_parenthesis, key_parenthesis_rest, key_set, key_set_at, key_of, masked, more_keys, one_key, operand_of, several_keys, pair_at, pair_of, plain_key, simple_key, IsGroupedBehind, IsGroupedKey};

use crate::cursor::Cursor;
use crate::expressions::{atom, expression, operations, parts, type_form, unary};
use crate::operands::{
    cast_at, expression_at, parenthesized_at, unary_at, unary_operator, with_parts,
};
use crate::symbols;
use p4_lexer::{Keyword, Sign, Word};
use p4_tree::{Expression, ExpressionKind, KeySet, KeySetKind, SimpleKey, SimpleKeyKind};
use sqlite_items::{Boxed, Items};
use std::alloc::{AllocError, Global};
use tg_base::Span;

/// A key in parentheses: an expression alone, or another key.
#[derive(Drop)]
pub(crate) enum GroupedKey {
    Expression(Expression),
    Key(SimpleKey),
}

/// KEY_SET.
#[tactic(auto, using(crate::proofs::KeyRows::key_set_row, crate::proofs::RowsOfForms::symbol_is))]
pub(crate) fn key_set(alloc: Global, cursor: &mut Cursor) -> Result<KeySet, AllocError>
    requires { Begins KEY_SET cursor.old }
    ensures value { IfOk result (λ key. key_set (below cursor.old) ≡ Some key) }
    ensures rest { IfOk result (λ _. cursor.new ≡ after cursor.old) }
{
    match cursor.enter() {
        Some(symbols::UNARY_OPERATOR) => {
            let (operator, span) = unary_operator(cursor);
            let operand = unary(alloc, cursor)?;
            let first = unary_at(alloc, span, operator, operand)?;
            Ok(alone(key_from(alloc, cursor, first)?))
        }
        Some(symbols::ATOM) => {
            let operand = atom(alloc, cursor)?;
            let parts = parts(alloc, cursor)?;
            let first = with_parts(alloc, operand, parts)?;
            Ok(alone(key_from(alloc, cursor, first)?))
        }
        Some(symbols::SIGN_LEFT_PAREN) => {
            let span = cursor.take().span;
            key_parenthesis(alloc, cursor, span)
        }
        _ => {
            let token = cursor.take();
            Ok(alone(SimpleKey {
                kind: plain_key(&token.word),
                span: token.span,
            }))
        }
    }
}

/// One key, where it stands.
fn alone(one: SimpleKey) -> KeySet
    ensures { result ≡ key_set_at one.span (One one) }
{
    let span = one.span;
    KeySet {
        kind: KeySetKind::One(one),
        span,
    }
}

/// OPERATIONS and MASK, behind this operand.
fn key_from(alloc: Global, cursor: &mut Cursor, first: Expression) -> Result<SimpleKey, AllocError>
    requires operations { Begins OPERATIONS cursor.old }
    requires mask { Begins MASK (after cursor.old) }
    ensures value { IfOk result (λ key.
        masked (operations (Some first) (below cursor.old)) (below (after cursor.old)) ≡ Some key) }
    ensures rest { IfOk result (λ _. cursor.new ≡ after (after cursor.old)) }
{
    let value = operations(alloc, cursor, first)?;
    masked(alloc, cursor, value)
}

/// MASK, behind this expression.
#[tactic(auto, using(crate::proofs::KeyRows::mask_row, crate::proofs::RowsOfForms::symbol_is))]
fn masked(alloc: Global, cursor: &mut Cursor, first: Expression) -> Result<SimpleKey, AllocError>
    requires { Begins MASK cursor.old }
    ensures value { IfOk result (λ key. masked (Some first) (below cursor.old) ≡ Some key) }
    ensures rest { IfOk result (λ _. cursor.new ≡ after cursor.old) }
{
    if cursor.enter().is_none() {
        let span = first.span;
        return Ok(SimpleKey {
            kind: SimpleKeyKind::Value(first),
            span,
        });
    }
    let token = cursor.take();
    let second = expression(alloc, cursor)?;
    Ok(pair_at(&token.word, first, second))
}

/// Two expressions with `&&&` or `..` between them.
fn pair_at(word: &Word, first: Expression, second: Expression) -> SimpleKey
    requires { IsTrue (is_pair (terminal_of word.now)) }
    ensures { all_three pair_at (pair_of word.now) (Some first) (Some second) ≡ Some result }
{
    let span = first.span;
    let kind = match word {
        Word::Sign(Sign::Mask) => SimpleKeyKind::Mask(first, second),
        Word::Sign(Sign::Range) => SimpleKeyKind::Range(first, second),
        _ => unreachable!(),
    };
    SimpleKey { kind, span }
}

/// A key of one word.
fn plain_key(word: &Word) -> SimpleKeyKind
    requires { IsTrue (is_plain_key (terminal_of word.now)) }
    ensures { plain_key word.now ≡ Some result }
{
    match word {
        Word::Keyword(Keyword::Default) => SimpleKeyKind::Default,
        Word::Sign(Sign::Underscore) => SimpleKeyKind::Any,
        _ => unreachable!(),
    }
}

/// SIMPLE_KEY.
#[tactic(auto, using(crate::proofs::KeyRows::simple_key_row, crate::proofs::RowsOfForms::symbol_is))]
fn simple_key(alloc: Global, cursor: &mut Cursor) -> Result<SimpleKey, AllocError>
    requires { Begins SIMPLE_KEY cursor.old }
    ensures value { IfOk result (λ key. simple_key (below cursor.old) ≡ Some key) }
    ensures rest { IfOk result (λ _. cursor.new ≡ after cursor.old) }
{
    if cursor.enter() == Some(symbols::EXPRESSION) {
        let first = expression(alloc, cursor)?;
        return masked(alloc, cursor, first);
    }
    let token = cursor.take();
    Ok(SimpleKey {
        kind: plain_key(&token.word),
        span: token.span,
    })
}

/// KEY_PARENTHESIS, behind a parenthesis that opens there.
#[tactic(auto, using(crate::proofs::KeyRows::key_parenthesis_row))]
fn key_parenthesis(alloc: Global, cursor: &mut Cursor, span: Span) -> Result<KeySet, AllocError>
    requires { Begins KEY_PARENTHESIS cursor.old }
    ensures value { IfOk result (λ key. key_parenthesis span (below cursor.old) ≡ Some key) }
    ensures rest { IfOk result (λ _. cursor.new ≡ after cursor.old) }
{
    if cursor.enter() == Some(symbols::TYPE_FORM) {
        let form = type_form(alloc, cursor)?;
        cursor.take();
        let operand = unary(alloc, cursor)?;
        let first = cast_at(alloc, span, form, operand)?;
        let one = key_from(alloc, cursor, first)?;
        return Ok(KeySet {
            kind: KeySetKind::One(one),
            span,
        });
    }
    let first = grouped_key(alloc, cursor)?;
    key_parenthesis_rest(alloc, cursor, span, first)
}

/// KEY_PARENTHESIS_REST, behind a key in parentheses that open there.
#[tactic(auto, using(crate::proofs::KeyRows::key_parenthesis_rest_row))]
fn key_parenthesis_rest(
    alloc: Global,
    cursor: &mut Cursor,
    span: Span,
    first: GroupedKey,
) -> Result<KeySet, AllocError>
    requires { Begins KEY_PARENTHESIS_REST cursor.old }
    ensures value { IfOk result (λ key. (under : Parse) → IsGroupedKey first under →
        key_parenthesis_rest span under (below cursor.old) ≡ Some key) }
    ensures rest { IfOk result (λ _. cursor.new ≡ after cursor.old) }
{
    if cursor.enter() == Some(symbols::SIGN_COMMA) {
        cursor.take();
        return several_keys(alloc, cursor, span, key_of(first));
    }
    cursor.take();
    grouped_operand(alloc, cursor, span, first)
}

/// SIMPLE_KEY, KEY_PARENTHESIS_TAIL and the parenthesis that closes, behind a key.
#[tactic(auto, using(crate::proofs::KeyLemmas::several_is))]
fn several_keys(
    alloc: Global,
    cursor: &mut Cursor,
    span: Span,
    first: SimpleKey,
) -> Result<KeySet, AllocError>
    requires second { Begins SIMPLE_KEY cursor.old }
    requires tail { Begins KEY_PARENTHESIS_TAIL (after cursor.old) }
    requires close { IsWord (after (after cursor.old)) }
    ensures value { IfOk result (λ key.
        several_keys span (Some first) (simple_key (below cursor.old)) (more_keys (below (after cursor.old)))
        ≡ Some key) }
    ensures rest { IfOk result (λ _. cursor.new ≡ after (after (after cursor.old))) }
{
    let second = simple_key(alloc, cursor)?;
    let keys = more_keys(alloc, cursor, first, second)?;
    cursor.take();
    Ok(KeySet {
        kind: KeySetKind::Several(keys),
        span,
    })
}

/// POSTFIX_PARTS, OPERATIONS and MASK, behind a key in parentheses that open there.
fn grouped_operand(
    alloc: Global,
    cursor: &mut Cursor,
    span: Span,
    first: GroupedKey,
) -> Result<KeySet, AllocError>
    requires parts { Begins POSTFIX_PARTS cursor.old }
    requires operations { Begins OPERATIONS (after cursor.old) }
    requires mask { Begins MASK (after (after cursor.old)) }
    ensures value { IfOk result (λ key.
        one_key span (masked (operations (both with_parts (Some (operand_of span first)) (parts (below cursor.old)))
        (below (after cursor.old))) (below (after (after cursor.old)))) ≡ Some key) }
    ensures rest { IfOk result (λ _. cursor.new ≡ after (after (after cursor.old))) }
{
    let operand = operand_of(alloc, span, first)?;
    let parts = parts(alloc, cursor)?;
    let operand = with_parts(alloc, operand, parts)?;
    let one = key_from(alloc, cursor, operand)?;
    Ok(KeySet {
        kind: KeySetKind::One(one),
        span,
    })
}

/// KEY_PARENTHESIS_TAIL, behind two keys.
#[tactic(auto, using(crate::proofs::KeyRows::key_parenthesis_tail_row, crate::proofs::ListLemmas::pushed, crate::proofs::AheadLemmas::nodes_opened, crate::proofs::AheadLemmas::nodes_after))]
fn more_keys(
    alloc: Global,
    cursor: &mut Cursor,
    first: SimpleKey,
    second: SimpleKey,
) -> Result<Items<SimpleKey>, AllocError>
    requires { Begins KEY_PARENTHESIS_TAIL cursor.old }
    ensures value { IfOk result (λ keys.
        option_map (λ more. first ∷ second ∷ more) (more_keys (below cursor.old)) ≡ Some keys) }
    ensures rest { IfOk result (λ _. cursor.new ≡ after cursor.old) }
{
    let mut keys = Vec::new(alloc);
    keys.push(first)?;
    keys.push(second)?;
    while cursor.enter().is_some() {
        cursor.take();
        keys.push(simple_key(alloc, cursor)?)?;
    }
    Ok(Items::from_vec(keys))
}

/// SIMPLE_KEY, in parentheses.
#[tactic(auto, using(crate::proofs::KeyLemmas::grouped_row, crate::proofs::RowsOfForms::symbol_is))]
fn grouped_key(alloc: Global, cursor: &mut Cursor) -> Result<GroupedKey, AllocError>
    requires { Begins SIMPLE_KEY cursor.old }
    ensures value { IfOk result (λ one. IsGroupedKey one (below cursor.old)) }
    ensures rest { IfOk result (λ _. cursor.new ≡ after cursor.old) }
{
    if cursor.enter() == Some(symbols::EXPRESSION) {
        let first = expression(alloc, cursor)?;
        return grouped_behind(alloc, cursor, first);
    }
    let token = cursor.take();
    Ok(GroupedKey::Key(SimpleKey {
        kind: plain_key(&token.word),
        span: token.span,
    }))
}

/// MASK, behind this expression in parentheses.
#[tactic(auto, using(crate::proofs::KeyRows::mask_row, crate::proofs::KeyLemmas::mask_group, crate::proofs::RowsOfForms::symbol_is))]
fn grouped_behind(
    alloc: Global,
    cursor: &mut Cursor,
    first: Expression,
) -> Result<GroupedKey, AllocError>
    requires { Begins MASK cursor.old }
    ensures value { IfOk result (λ one. IsGroupedBehind one first (below cursor.old)) }
    ensures rest { IfOk result (λ _. cursor.new ≡ after cursor.old) }
{
    if cursor.enter().is_none() {
        return Ok(GroupedKey::Expression(first));
    }
    let token = cursor.take();
    let second = expression(alloc, cursor)?;
    Ok(GroupedKey::Key(pair_at(&token.word, first, second)))
}

/// The key that was read.
fn key_of(one: GroupedKey) -> SimpleKey
    ensures { result ≡ key_of one }
{
    match one {
        GroupedKey::Expression(value) => {
            let span = value.span;
            SimpleKey {
                kind: SimpleKeyKind::Value(value),
                span,
            }
        }
        GroupedKey::Key(one) => one,
    }
}

/// The key that was read, as an operand in parentheses that open there.
fn operand_of(alloc: Global, span: Span, one: GroupedKey) -> Result<Expression, AllocError>
    ensures { IfOk result (λ e. e ≡ operand_of span one) }
{
    match one {
        GroupedKey::Expression(inner) => parenthesized_at(alloc, span, inner),
        GroupedKey::Key(one) => {
            let one = Boxed::new(alloc, one)?;
            Ok(expression_at(span, ExpressionKind::ParenthesizedKey(one)))
        }
    }
}
