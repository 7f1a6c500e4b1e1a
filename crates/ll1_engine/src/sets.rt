//! Sets of symbols as marks, and the least set that is closed under rows: passes over them widen the marks until a pass
//! adds nothing.

ghost use Rattle.std.specs.Prelude.{◌≡◌, ℕ, ◌<◌, ◌↔◌, ◌∷◌, [], List, Bool, true, length, ◌+◌, slice_set, IsFalse};
ghost use Rattle.std.specs.List.{AllByRecursion};
ghost use Rattle.ll1_engine.specs.declared.grammar.Row.{Row};
ghost use Rattle.ll1_engine.specs.Table.{IsRow, RowIsBelow};
ghost use Rattle.ll1_engine.specs.Marks.{marked, Has, all_in, begins_in, Widens, DerivesWithin, AllDerive, ClosedAt};

use crate::grammar::{Row, Symbol};

/// Marks each symbol that derives a list of marked ones alone: the least set that has the marked symbols and, with the
/// right side of a row, its left.
pub(crate) fn close_under(rows: &[Row], marks: &mut [bool])
    requires below { (k : ℕ) (r : Row) → IsRow rows.now k r → RowIsBelow (length marks.old) r }
    ensures size { length marks.new ≡ length marks.old }
    ensures exact { (x : ℕ) → Has marks.new x ↔ DerivesWithin rows.now marks.old (x ∷ []) }
{
    while widen(rows, marks) {}
}

/// One pass over the rows.
fn widen(rows: &[Row], marks: &mut [bool]) -> bool
    requires { (k : ℕ) (r : Row) → IsRow rows.now k r → RowIsBelow (length marks.old) r }
    ensures widens { Widens marks.old marks.new result }
    ensures closed { IsFalse result →
        (k : ℕ) (r : Row) → IsRow rows.now k r → ClosedAt (marked marks.new) r }
    ensures derives { (seed : List Bool) →
        AllDerive rows.now seed marks.old → AllDerive rows.now seed marks.new }
{
    let mut added = false;
    for row in rows {
        let more = widen_row(row, marks);
        added |= more;
    }
    added
}

/// Marks the left of the row where its right side is marked.
fn widen_row(row: &Row, marks: &mut [bool]) -> bool
    requires { RowIsBelow (length marks.old) row.now }
    ensures widens { Widens marks.old marks.new result }
    ensures closed { IsFalse result → ClosedAt (marked marks.new) row.now }
    ensures derives { (g : List Row) (k : ℕ) (seed : List Bool) → IsRow g k row.now →
        AllDerive g seed marks.old → AllDerive g seed marks.new }
{
    if all_marked(marks, row.right.as_slice()) {
        return mark(marks, row.left);
    }
    false
}

/// Marks a symbol, and says whether it was not marked before.
fn mark(marks: &mut [bool], symbol: Symbol) -> bool
    requires { symbol < length marks.old }
    ensures after { marks.new ≡ slice_set marks.old symbol true }
    ensures widens { Widens marks.old marks.new result }
{
    let added = !marks[symbol];
    marks[symbol] = true;
    added
}

/// Whether each symbol is marked.
pub(crate) fn all_marked(marks: &[bool], symbols: &[Symbol]) -> bool
    requires { AllByRecursion (λ y. y < length marks.now) symbols.now }
    ensures { result ≡ all_in (marked marks.now) symbols.now }
{
    for symbol in symbols {
        if !marks[*symbol] {
            return false;
        }
    }
    true
}

/// Whether a symbol is in `first` and each before it in `nullable`.
pub(crate) fn begins(first: &[bool], nullable: &[bool], symbols: &[Symbol]) -> bool
    requires first { AllByRecursion (λ y. y < length first.now) symbols.now }
    requires nullable { AllByRecursion (λ y. y < length nullable.now) symbols.now }
    ensures { result ≡ begins_in (marked first.now) (marked nullable.now) symbols.now }
{
    for symbol in symbols {
        if first[*symbol] {
            return true;
        }
        if !nullable[*symbol] {
            return false;
        }
    }
    false
}
