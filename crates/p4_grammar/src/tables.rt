//! The tables of a source with their properties, along its derivation.

ghost use Rattle.std.specs.Prelude.{◌≡◌, Some, IfOk};
ghost use Rattle.p4_grammar.specs.declared.symbols.TheConstants.{CONSTANCY, EMPTY_CALL, ENTRIES, KEYS, LISTED_ACTIONS, PROPERTY, PROPERTY_VALUE, TABLE, TABLE_PROPERTIES};
ghost use Rattle.p4_grammar.specs.Ahead.{Begins, below, after};
ghost use Rattle.p4_grammar.specs.Tables.{constancy, empty_call, entries, keys, listed_actions, properties, property_of, property_value, table};

use crate::cursor::Cursor;
use crate::expressions::expression;
use crate::keys::key_set;
use crate::names::{annotations, name, name_at, word};
use crate::symbols::{CONSTANCY, KEYWORD_ENTRIES, KEYWORD_KEY};
use p4_tree::{Entry, ListedAction, Property, PropertyKind, Table, TableKey};
use sqlite_items::Items;
use std::alloc::{AllocError, Global};

/// TABLE.
#[tactic(auto, using(crate::proofs::TableRows::table_row, crate::proofs::RowsOfForms::symbol_is))]
pub(crate) fn table(alloc: Global, cursor: &mut Cursor) -> Result<Table, AllocError>
    requires { Begins TABLE cursor.old }
    ensures value { IfOk result (λ made. table (below cursor.old) ≡ Some made) }
    ensures rest { IfOk result (λ _. cursor.new ≡ after cursor.old) }
{
    cursor.enter();
    let span = cursor.take().span;
    let name = name(alloc, cursor)?;
    cursor.take();
    let properties = properties(alloc, cursor)?;
    cursor.take();
    Ok(Table {
        name,
        properties,
        span,
    })
}

/// TABLE_PROPERTIES.
#[tactic(auto, using(crate::proofs::TableRows::table_properties_row, crate::proofs::RowsOfForms::symbol_is, crate::proofs::ListLemmas::pushed, crate::proofs::ListLemmas::behind_none, crate::proofs::ListLemmas::gathered, crate::proofs::AheadLemmas::nodes_opened, crate::proofs::AheadLemmas::nodes_after))]
fn properties(alloc: Global, cursor: &mut Cursor) -> Result<Items<Property>, AllocError>
    requires { Begins TABLE_PROPERTIES cursor.old }
    ensures value { IfOk result (λ made. properties (below cursor.old) ≡ Some made) }
    ensures rest { IfOk result (λ _. cursor.new ≡ after cursor.old) }
{
    let mut all = Vec::new(alloc);
    while cursor.enter().is_some() {
        let annotations = annotations(alloc, cursor)?;
        let span = cursor.place();
        let kind = property(alloc, cursor)?;
        all.push(Property {
            annotations,
            kind,
            span,
        })?;
    }
    Ok(Items::from_vec(all))
}

/// PROPERTY.
#[tactic(auto, using(crate::proofs::TableRows::property_row, crate::proofs::RowsOfForms::symbol_is))]
fn property(alloc: Global, cursor: &mut Cursor) -> Result<PropertyKind, AllocError>
    requires { Begins PROPERTY cursor.old }
    ensures value { IfOk result (λ made. property_of (below cursor.old) ≡ Some made) }
    ensures rest { IfOk result (λ _. cursor.new ≡ after cursor.old) }
{
    let first = cursor.enter();
    if first == Some(CONSTANCY) {
        let fixed = constancy(cursor);
        return property_value(alloc, cursor, fixed);
    }
    cursor.take();
    cursor.take();
    cursor.take();
    if first == Some(KEYWORD_KEY) {
        let keys = keys(alloc, cursor)?;
        cursor.take();
        return Ok(PropertyKind::Key(keys));
    }
    let actions = listed_actions(alloc, cursor)?;
    cursor.take();
    Ok(PropertyKind::Actions(actions))
}

/// CONSTANCY: whether `const` stands there.
#[tactic(auto, using(crate::proofs::TableRows::constancy_row))]
fn constancy(cursor: &mut Cursor) -> bool
    requires { Begins CONSTANCY cursor.old }
    ensures value { constancy (below cursor.old) ≡ Some result }
    ensures rest { cursor.new ≡ after cursor.old }
{
    if cursor.enter().is_none() {
        return false;
    }
    cursor.take();
    true
}

/// PROPERTY_VALUE, behind what says whether it is constant.
#[tactic(auto, using(crate::proofs::TableRows::property_value_row, crate::proofs::RowsOfForms::symbol_is))]
fn property_value(
    alloc: Global,
    cursor: &mut Cursor,
    fixed: bool,
) -> Result<PropertyKind, AllocError>
    requires { Begins PROPERTY_VALUE cursor.old }
    ensures value { IfOk result (λ made. property_value fixed (below cursor.old) ≡ Some made) }
    ensures rest { IfOk result (λ _. cursor.new ≡ after cursor.old) }
{
    if cursor.enter() == Some(KEYWORD_ENTRIES) {
        cursor.take();
        cursor.take();
        cursor.take();
        let entries = entries(alloc, cursor)?;
        cursor.take();
        return Ok(PropertyKind::Entries(fixed, entries));
    }
    let name = name_at(alloc, cursor.take())?;
    cursor.take();
    let value = expression(alloc, cursor)?;
    cursor.take();
    Ok(PropertyKind::Named(fixed, name, value))
}

/// KEYS.
#[tactic(auto, using(crate::proofs::TableRows::keys_row, crate::proofs::RowsOfForms::symbol_is, crate::proofs::ListLemmas::pushed, crate::proofs::ListLemmas::behind_none, crate::proofs::ListLemmas::gathered, crate::proofs::AheadLemmas::nodes_opened, crate::proofs::AheadLemmas::nodes_after))]
fn keys(alloc: Global, cursor: &mut Cursor) -> Result<Items<TableKey>, AllocError>
    requires { Begins KEYS cursor.old }
    ensures value { IfOk result (λ made. keys (below cursor.old) ≡ Some made) }
    ensures rest { IfOk result (λ _. cursor.new ≡ after cursor.old) }
{
    let mut all = Vec::new(alloc);
    while cursor.enter().is_some() {
        let span = cursor.place();
        let value = expression(alloc, cursor)?;
        cursor.take();
        let match_kind = word(alloc, cursor)?;
        let annotations = annotations(alloc, cursor)?;
        cursor.take();
        all.push(TableKey {
            value,
            match_kind,
            annotations,
            span,
        })?;
    }
    Ok(Items::from_vec(all))
}

/// LISTED_ACTIONS.
#[tactic(auto, using(crate::proofs::TableRows::listed_actions_row, crate::proofs::RowsOfForms::symbol_is, crate::proofs::ListLemmas::pushed, crate::proofs::ListLemmas::behind_none, crate::proofs::ListLemmas::gathered, crate::proofs::AheadLemmas::nodes_opened, crate::proofs::AheadLemmas::nodes_after))]
fn listed_actions(alloc: Global, cursor: &mut Cursor) -> Result<Items<ListedAction>, AllocError>
    requires { Begins LISTED_ACTIONS cursor.old }
    ensures value { IfOk result (λ made. listed_actions (below cursor.old) ≡ Some made) }
    ensures rest { IfOk result (λ _. cursor.new ≡ after cursor.old) }
{
    let mut all = Vec::new(alloc);
    while cursor.enter().is_some() {
        let annotations = annotations(alloc, cursor)?;
        let span = cursor.place();
        let name = name(alloc, cursor)?;
        let has_parentheses = empty_call(cursor);
        cursor.take();
        all.push(ListedAction {
            annotations,
            name,
            has_parentheses,
            span,
        })?;
    }
    Ok(Items::from_vec(all))
}

/// EMPTY_CALL: whether `()` stands there.
#[tactic(auto, using(crate::proofs::TableRows::empty_call_row))]
fn empty_call(cursor: &mut Cursor) -> bool
    requires { Begins EMPTY_CALL cursor.old }
    ensures value { empty_call (below cursor.old) ≡ Some result }
    ensures rest { cursor.new ≡ after cursor.old }
{
    if cursor.enter().is_none() {
        return false;
    }
    cursor.take();
    cursor.take();
    true
}

/// ENTRIES.
#[tactic(auto, using(crate::proofs::TableRows::entries_row, crate::proofs::RowsOfForms::symbol_is, crate::proofs::ListLemmas::pushed, crate::proofs::ListLemmas::behind_none, crate::proofs::ListLemmas::gathered, crate::proofs::AheadLemmas::nodes_opened, crate::proofs::AheadLemmas::nodes_after))]
fn entries(alloc: Global, cursor: &mut Cursor) -> Result<Items<Entry>, AllocError>
    requires { Begins ENTRIES cursor.old }
    ensures value { IfOk result (λ made. entries (below cursor.old) ≡ Some made) }
    ensures rest { IfOk result (λ _. cursor.new ≡ after cursor.old) }
{
    let mut all = Vec::new(alloc);
    while cursor.enter().is_some() {
        let span = cursor.place();
        let key_set = key_set(alloc, cursor)?;
        cursor.take();
        let action = expression(alloc, cursor)?;
        let annotations = annotations(alloc, cursor)?;
        cursor.take();
        all.push(Entry {
            key_set,
            action,
            annotations,
            span,
        })?;
    }
    Ok(Items::from_vec(all))
}
