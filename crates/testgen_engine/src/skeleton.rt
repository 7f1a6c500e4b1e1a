//! The skeleton with statements of two forms, as a text of words with a blank behind each.
ghost use Rattle.std.specs.Prelude.{◌≡◌, ◌≢◌, ◌+◌, ◌*◌, ◌≤◌, ◌<◌, ℕ, List, ◌++◌, length, take_while, IfOk, IfSome, IsTrue, ◌↔◌, MatchOption, MatchResult};
ghost use Rattle.std.specs.Char.{is_ascii_digit};
ghost use Rattle.std.specs.List.{take_while, prefix_len};
ghost use Rattle.std.specs.Str.Parse.{digits_value, AllDigits};
ghost use Rattle.testgen_engine.specs.Skeleton.{head_text, tail_text, assign_text, drop_text, end_text};
ghost use Rattle.testgen_engine.specs.Statements.{IsPlain, IsNumberAt, IsNoNumber, IsStatementAt, IsNoStatement, IsBody, IsNoBody, IsSkeletonOf, IsNoSkeleton};

use p4_program::{EgressSpec, PORT_END, StatementKind};
use sqlite_items::Items;
use std::alloc::{AllocError, Global};

/// The most statements of a source that is built.
const MOST_STATEMENTS: usize = 16;

/// The words before the statements, each with a blank behind it.
#[tactic(auto, unfolding(crate::specs::Skeleton::head_text))]
pub fn head() -> &'static [u8]
    ensures { result.now ≡ head_text }
{
    b"struct H { } struct M { } parser P ( packet_in b , out H h , inout M m , inout standard_metadata_t s ) { state start { transition accept ; } } control V ( inout H h , inout M m ) { apply { } } control I ( inout H h , inout M m , inout standard_metadata_t s ) { apply { "
}

/// The words after the statements.
#[tactic(auto, unfolding(crate::specs::Skeleton::tail_text))]
fn tail() -> &'static [u8]
    ensures { result.now ≡ tail_text }
{
    b"} } control E ( inout H h , inout M m , inout standard_metadata_t s ) { apply { } } control C ( inout H h , inout M m ) { apply { } } control D ( packet_out b , in H h ) { apply { } } V1Switch ( P ( ) , V ( ) , I ( ) , E ( ) , C ( ) , D ( ) ) main ; "
}

/// The words of a drop.
#[tactic(auto, unfolding(crate::specs::Skeleton::drop_text))]
pub fn drop_call() -> &'static [u8]
    ensures { result.now ≡ drop_text }
{
    b"mark_to_drop ( s ) ; "
}

/// An assignment up to its number.
#[tactic(auto, unfolding(crate::specs::Skeleton::assign_text))]
pub fn assignment() -> &'static [u8]
    ensures { result.now ≡ assign_text }
{
    b"s . egress_spec = "
}

/// An assignment after its number.
#[tactic(auto, unfolding(crate::specs::Skeleton::end_text))]
pub fn end_of_assignment() -> &'static [u8]
    ensures { result.now ≡ end_text }
{
    b" ; "
}

/// What follows a text's front, where the text begins so.
fn after<'a>(text: &'a [u8], front: &[u8]) -> Option<&'a [u8]>
    ensures { MatchOption result ((rest : List ℕ)
        → text.now ≢ front.now ++ rest) (λ rest. text.now ≡ front.now ++ rest.now) }
{
    text.strip_prefix(front)
}

/// How many digits a text begins with.
fn digit_count(text: &[u8]) -> usize
    ensures { result ≡ prefix_len is_ascii_digit text.now }
{
    text.iter().take_while(|byte| byte.is_ascii_digit()).count()
}

/// The number that at most three digits spell.
fn value_of(digits: &[u8]) -> u16
    requires few { length digits.now ≤ 3 }
    requires digits { AllDigits 10 digits.now }
    ensures { result ≡ digits_value 10 digits.now }
{
    let mut value = 0;
    for digit in digits {
        value = 10 * value + u16::from(digit - b'0');
    }
    value
}

/// Whether there are one to three digits, and no zero before others.
fn is_plain(digits: &[u8]) -> bool
    ensures { IsTrue result ↔ IsPlain digits.now }
{
    !digits.is_empty() && digits.len() <= 3 && (digits.len() == 1 || digits[0] != b'0')
}

/// The number of nine bits that a text begins with, and what follows it.
fn leading_number(text: &[u8]) -> Option<(u16, &[u8])>
    ensures { MatchOption result (IsNoNumber text.now)
        (λ found. IsNumberAt text.now found.0 found.1.now) }
{
    let (digits, rest) = text.split_at(digit_count(text));
    if !is_plain(digits) {
        return None;
    }
    let value = value_of(digits);
    if value < PORT_END {
        Some((value, rest))
    } else {
        None
    }
}

/// The statement that a text begins with, and what follows it.
fn first_statement(text: &[u8]) -> Option<(StatementKind, &[u8])>
    ensures statement { MatchOption result (IsNoStatement text.now)
        (λ found. IsStatementAt text.now found.0 found.1.now) }
    ensures shorter { IfSome result (λ found. length found.1.now < length text.now) }
{
    if let Some(rest) = after(text, drop_call()) {
        return Some((StatementKind::MarkToDrop, rest));
    }
    let Some(number) = after(text, assignment()) else {
        return None;
    };
    let Some((value, end)) = leading_number(number) else {
        return None;
    };
    let Some(rest) = after(end, end_of_assignment()) else {
        return None;
    };
    Some((
        StatementKind::AssignEgressSpec(EgressSpec::new(value)),
        rest,
    ))
}

/// The statements of a text that is their words and the skeleton's end.
fn kinds_of(alloc: Global, body: &[u8]) -> Result<Option<Items<StatementKind>>, AllocError>
    ensures { IfOk result
        (λ found. MatchOption found (IsNoBody body.now) (λ kinds. IsBody body.now kinds)) }
{
    let mut kinds = Items::new(alloc);
    let mut rest = body;
    while let Some((kind, next)) = first_statement(rest) {
        kinds.push(kind)?;
        rest = next;
    }
    Ok(if rest == tail() { Some(kinds) } else { None })
}

/// Whether there are more statements than a source that is built has.
fn are_many(kinds: &[StatementKind]) -> bool
    ensures { IsTrue result ↔ MOST_STATEMENTS < length kinds.now }
{
    kinds.len() > MOST_STATEMENTS
}

/// What the statements do, where the text is that of the skeleton with some.
pub fn kinds_in(alloc: Global, text: &[u8]) -> Result<Option<Items<StatementKind>>, AllocError>
    ensures { IfOk result (λ found. MatchOption found (IsNoSkeleton text.now)
        (λ kinds. IsSkeletonOf text.now kinds)) }
{
    let Some(body) = after(text, head()) else {
        return Ok(None);
    };
    let Some(kinds) = kinds_of(alloc, body)? else {
        return Ok(None);
    };
    if are_many(kinds.as_slice()) {
        return Ok(None);
    }
    Ok(Some(kinds))
}
