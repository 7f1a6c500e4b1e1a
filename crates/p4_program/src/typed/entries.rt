//! The test of one entry: whether it is one of some table of the program.
ghost use Rattle.std.specs.Prelude.{◌≡◌, ◌↔◌, IsTrue};
ghost use Rattle.std.specs.List.{AllZip};
ghost use Rattle.p4_program.specs.declared.typed.types.Scalar.TheVariants.{Sized};
ghost use Rattle.p4_program.specs.declared.typed.types.ValueType.TheVariants.{Simple};
ghost use Rattle.p4_program.specs.Entries.{PrefixFits, MaskFits, PatternFits, KeyFits, ArgumentFits, ArgumentsFit, PatternsFit, PriorityFits, ActionFits, NamesAction, TakesEntries, FitsTable, EntryFits};
ghost use Rattle.p4_program.specs.Trees.Callables.{table_of};
ghost use Rattle.p4_program.specs.Trees.Programs.{core_of};

use crate::typed::callables::Parameter;
use crate::typed::input::{Entry, MAX_PRIORITY};
use crate::typed::program::Program;
use crate::typed::tables::{ListedAction, MatchKind, Pattern, Table, TableKey};
use crate::typed::types::{Scalar, ValueType};
use bits_core::Bits;

/// Whether it is an entry of some table of the program.
pub(crate) fn entry_fits(program: &Program, entry: &Entry) -> bool
    ensures { IsTrue result ↔ EntryFits (core_of program.now) entry.now }
{
    match program.table(entry.table) {
        Some(table) => fits_table(program, entry, table),
        None => false,
    }
}

#[tactic(auto, using(crate::proofs::EntryLemmas::whole_rest))]
fn prefix_fits(width: u8, bits: Bits, count: u8) -> bool
    ensures { IsTrue result ↔ PrefixFits width bits count }
{
    if bits.width != width || count > width {
        return false;
    }
    if count == 0 {
        bits.value == 0
    } else {
        bits.value % (1 << (width - count)) == 0
    }
}

fn mask_fits(width: u8, bits: Bits, mask: Bits) -> bool
    ensures { IsTrue result ↔ MaskFits width bits mask }
{
    bits.width == width && mask.width == width && bits.value & mask.value == bits.value
}

fn pattern_fits(kind: MatchKind, width: u8, pattern: Pattern) -> bool
    ensures { IsTrue result ↔ PatternFits kind width pattern }
{
    match (kind, pattern) {
        (MatchKind::Exact, Pattern::Exact(bits)) => bits.width == width,
        (MatchKind::Lpm, Pattern::Prefix(bits, count)) => prefix_fits(width, bits, count),
        (MatchKind::Ternary, Pattern::Masked(bits, mask)) => mask_fits(width, bits, mask),
        _ => false,
    }
}

#[tactic(auto, using(crate::proofs::Zips::all_zip_long, crate::proofs::Zips::all_zip_at, crate::proofs::Zips::all_zip_from))]
fn patterns_fit(keys: &[TableKey], patterns: &[Pattern]) -> bool
    ensures { IsTrue result ↔ AllZip KeyFits keys.now patterns.now }
{
    if keys.len() != patterns.len() {
        return false;
    }
    for (key, pattern) in keys.iter().zip(patterns) {
        if !pattern_fits(key.match_kind, key.width, *pattern) {
            return false;
        }
    }
    true
}

fn argument_fits(parameter: &Parameter, bits: Bits) -> bool
    ensures { IsTrue result ↔ (parameter.now.value_type ≡ Simple (Sized bits.width)) }
{
    parameter.value_type == ValueType::Simple(Scalar::Sized(bits.width))
}

#[tactic(auto, using(crate::proofs::Zips::all_zip_long, crate::proofs::Zips::all_zip_at, crate::proofs::Zips::all_zip_from))]
fn arguments_fit(parameters: &[Parameter], arguments: &[Bits]) -> bool
    ensures { IsTrue result ↔ ArgumentsFit parameters.now arguments.now }
{
    if parameters.len() != arguments.len() {
        return false;
    }
    for (parameter, argument) in parameters.iter().zip(arguments) {
        if !argument_fits(parameter, *argument) {
            return false;
        }
    }
    true
}

fn priority_fits(ordered: bool, priority: u32) -> bool
    ensures { IsTrue result ↔ PriorityFits ordered priority }
{
    if ordered {
        1 <= priority && priority <= MAX_PRIORITY
    } else {
        priority == 0
    }
}

/// Whether the action may be named by an entry with these arguments.
fn action_fits(program: &Program, listed: ListedAction, arguments: &[Bits]) -> bool
    ensures { IsTrue result ↔ ActionFits (core_of program.now) listed arguments.now }
{
    match program.action(listed.action) {
        Some(action) => {
            !listed.default_only && arguments_fit(action.parameters.as_slice(), arguments)
        }
        None => false,
    }
}

fn names_action(program: &Program, entry: &Entry, table: &Table) -> bool
    ensures { IsTrue result ↔ NamesAction (core_of program.now) entry.now (table_of table.now) }
{
    match table.actions.get(entry.action as usize) {
        Some(listed) => action_fits(program, *listed, entry.arguments.as_slice()),
        None => false,
    }
}

#[tactic(auto, using(crate::proofs::EntryLemmas::keys_fit, crate::proofs::EntryLemmas::fit_keys))]
fn keys_fit(table: &Table, entry: &Entry) -> bool
    ensures { IsTrue result ↔ PatternsFit (table_of table.now).keys entry.now.keys }
{
    patterns_fit(table.keys.as_slice(), entry.keys.as_slice())
}

fn takes_entries(table: &Table) -> bool
    ensures { IsTrue result ↔ TakesEntries (table_of table.now) }
{
    !table.keys.as_slice().is_empty() && table.entries.is_none()
}

fn fits_table(program: &Program, entry: &Entry, table: &Table) -> bool
    ensures { IsTrue result ↔ FitsTable (core_of program.now) entry.now (table_of table.now) }
{
    if !takes_entries(table) || !priority_fits(table.is_ordered(), entry.priority) {
        return false;
    }
    keys_fit(table, entry) && names_action(program, entry, table)
}
