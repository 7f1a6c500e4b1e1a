//! The relations between symbols that FIRST and FOLLOW are the closures of, each as rows that are pairs of symbols.

ghost use Rattle.std.specs.Prelude.{◌≡◌, ℕ, ◌<◌, ◌++◌, ◌∷◌, [], if◌then◌else◌, length, IfOk, OnOk};
ghost use Rattle.std.specs.List.{AllByRecursion};
ghost use Rattle.ll1_engine.specs.declared.grammar.Row.{Row};
ghost use Rattle.ll1_engine.specs.Marks.{marked, all_in};
ghost use Rattle.ll1_engine.specs.Relations.{pair, begin_pairs, next_pairs, end_pairs};
ghost use Rattle.ll1_engine.specs.Analysis.{AreBelow, MarksNullable, AreRelations};

use crate::grammar::{Row, Symbol, Symbols};
use crate::sets::all_marked;
use std::alloc::{AllocError, Global};

/// Pairs of symbols: what begins directly with what, what stands directly before what, and what ends what.
#[derive(Debug, Drop)]
pub(crate) struct Relations {
    pub(crate) begins: Vec<Row>,
    pub(crate) next: Vec<Row>,
    pub(crate) ends: Vec<Row>,
}

/// The relations of a table.
pub(crate) fn relations_of(
    alloc: Global,
    rows: &[Row],
    nullable: &[bool],
) -> Result<Relations, AllocError>
    requires below { AreBelow (length nullable.now) rows.now }
    requires nullable { MarksNullable rows.now nullable.now }
    ensures { IfOk result (λ s. AreRelations (length nullable.now) rows.now s) }
{
    let mut begins = Vec::new(alloc);
    let mut next = Vec::new(alloc);
    let mut ends = Vec::new(alloc);
    for row in rows {
        let right = row.right.as_slice();
        push_begins(alloc, row.left, right, nullable, &mut begins)?;
        push_next(alloc, right, nullable, &mut next)?;
        push_ends(alloc, row.left, right, nullable, &mut ends)?;
    }
    Ok(Relations { begins, next, ends })
}

/// Adds a symbol with each of those that stand behind nullable ones alone.
fn push_begins(
    alloc: Global,
    left: Symbol,
    symbols: &[Symbol],
    nullable: &[bool],
    pairs: &mut Vec<Row>,
) -> Result<(), AllocError>
    requires { AllByRecursion (λ y. y < length nullable.now) symbols.now }
    ensures { OnOk result
        (pairs.new.items ≡ pairs.old.items ++ begin_pairs (marked nullable.now) left symbols.now) }
{
    for symbol in symbols {
        let pair = pair_of(alloc, left, *symbol)?;
        pairs.push(pair)?;
        if !nullable[*symbol] {
            return Ok(());
        }
    }
    Ok(())
}

/// Adds each symbol of a right side with those that can stand next.
fn push_next(
    alloc: Global,
    right: &[Symbol],
    nullable: &[bool],
    pairs: &mut Vec<Row>,
) -> Result<(), AllocError>
    requires { AllByRecursion (λ y. y < length nullable.now) right.now }
    ensures { OnOk result
        (pairs.new.items ≡ pairs.old.items ++ next_pairs (marked nullable.now) right.now) }
{
    for i in 0..right.len() {
        push_begins(alloc, right[i], &right[i + 1..], nullable, pairs)?;
    }
    Ok(())
}

/// Adds each symbol of a right side that stands before nullable ones alone, with the left of the row.
fn push_ends(
    alloc: Global,
    left: Symbol,
    right: &[Symbol],
    nullable: &[bool],
    pairs: &mut Vec<Row>,
) -> Result<(), AllocError>
    requires { AllByRecursion (λ y. y < length nullable.now) right.now }
    ensures { OnOk result
        (pairs.new.items ≡ pairs.old.items ++ end_pairs (marked nullable.now) left right.now) }
{
    for i in 0..right.len() {
        push_end(alloc, left, right[i], &right[i + 1..], nullable, pairs)?;
    }
    Ok(())
}

/// Adds a symbol of a row with the left of the row, where only nullable ones stand after it.
fn push_end(
    alloc: Global,
    left: Symbol,
    symbol: Symbol,
    after: &[Symbol],
    nullable: &[bool],
    pairs: &mut Vec<Row>,
) -> Result<(), AllocError>
    requires { AllByRecursion (λ y. y < length nullable.now) after.now }
    ensures { OnOk result (pairs.new.items ≡ pairs.old.items
        ++ (if all_in (marked nullable.now) after.now then pair symbol left ∷ [] else [])) }
{
    if !all_marked(nullable, after) {
        return Ok(());
    }
    let pair = pair_of(alloc, symbol, left)?;
    pairs.push(pair)?;
    Ok(())
}

fn pair_of(alloc: Global, left: Symbol, other: Symbol) -> Result<Row, AllocError>
    ensures { IfOk result (λ row. row ≡ pair left other) }
{
    let right = Symbols::from_slice(alloc, &[other])?;
    Ok(Row {
        left,
        right,
        rank: 0,
    })
}
