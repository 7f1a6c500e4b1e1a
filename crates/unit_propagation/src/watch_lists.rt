//! The lists of clauses by their watched literals, and the room in them.

ghost use Rattle.std.specs.Prelude.{◌≡◌, ◌<◌, ◌≤◌, ℕ, All, OnOk, length, slice_index_or, vec_capacity};
ghost use Rattle.unit_propagation.specs.LitCodes.{code_of};
ghost use Rattle.unit_propagation.specs.Watching.{appended, items_of, rooms_of};
ghost use Rattle.unit_propagation.specs.Watching.{AtMost, Fits, Grows, HasLess, HasRoom};
ghost use Rattle.unit_propagation.specs.Watching.{ListsClause, ListsRoom, SameLists};

use crate::lit_code::LitCode;
use crate::pair::Pair;
use cnf_core::Lit;
use std::alloc::{AllocError, Global};

/// The place of the literal's list.
pub fn code(l: Lit) -> usize
    ensures { result ≡ code_of l }
{
    2 * l.var as usize + if l.positive { 1 } else { 0 }
}

/// Makes empty lists up to a number.
pub fn add_lists(alloc: Global, lists: &mut Vec<Vec<u32>>, count: usize) -> Result<(), AllocError>
    ensures size { OnOk result (count ≤ length lists.new.items) }
    ensures longer { length lists.old.items ≤ length lists.new.items }
    ensures same { SameLists (items_of lists.old.items) (items_of lists.new.items) }
    ensures rooms { AtMost (rooms_of lists.old.items) (rooms_of lists.new.items) }
{
    for _ in lists.len()..count {
        lists.push(Vec::new(alloc))?;
    }
    Ok(())
}

/// Makes numbers 0 up to a count of them.
pub fn add_zeros(held: &mut Vec<u32>, count: usize) -> Result<(), AllocError>
    ensures size { OnOk result (count ≤ length held.new.items) }
    ensures longer { length held.old.items ≤ length held.new.items }
    ensures same { (i : ℕ) → slice_index_or held.new.items i 0 ≡ slice_index_or held.old.items i 0 }
{
    for _ in held.len()..count {
        held.push(0)?;
    }
    Ok(())
}

/// Makes room for one more clause in the list of each of its literals.
pub fn make_room(
    lists: &mut Vec<Vec<u32>>,
    held: &mut Vec<u32>,
    clause: &[LitCode],
) -> Result<(), AllocError>
    requires lists { All (λ l. code_of l < length lists.old.items) clause.now }
    requires numbers { All (λ l. code_of l < length held.old.items) clause.now }
    requires room { HasRoom held.old.items (rooms_of lists.old.items) }
    ensures lists { items_of lists.new.items ≡ items_of lists.old.items }
    ensures size { length held.new.items ≡ length held.old.items }
    ensures keeps { AtMost held.old.items held.new.items }
    ensures grows { OnOk result (Grows clause.now held.old.items held.new.items) }
    ensures room { HasRoom held.new.items (rooms_of lists.new.items) }
{
    for l in clause {
        make_room_at(lists, held, l.place())?;
    }
    Ok(())
}

fn make_room_at(lists: &mut Vec<Vec<u32>>, held: &mut Vec<u32>, at: usize) -> Result<(), AllocError>
    requires lists { at < length lists.old.items }
    requires numbers { at < length held.old.items }
    requires room { HasRoom held.old.items (rooms_of lists.old.items) }
    ensures lists { items_of lists.new.items ≡ items_of lists.old.items }
    ensures size { length held.new.items ≡ length held.old.items }
    ensures keeps { AtMost held.old.items held.new.items }
    ensures grows { OnOk result (HasLess held.old.items held.new.items at) }
    ensures room { HasRoom held.new.items (rooms_of lists.new.items) }
{
    let Some(wanted) = held[at].checked_add(1) else {
        return Err(AllocError);
    };
    reserve_for(&mut lists[at], wanted as usize)?;
    held[at] = wanted;
    Ok(())
}

/// Makes room for so many clauses. A list that has to grow gets a quarter more, since most lists stay as they are.
fn reserve_for(list: &mut Vec<u32>, wanted: usize) -> Result<(), AllocError>
    ensures items { list.new.items ≡ list.old.items }
    ensures capacity { vec_capacity list.old ≤ vec_capacity list.new }
    ensures room { OnOk result (wanted ≤ vec_capacity list.new) }
{
    if wanted <= list.capacity() {
        return Ok(());
    }
    let room = wanted.saturating_add(wanted / 4);
    list.reserve_exact(room.saturating_sub(list.len()))
}

/// Puts the clause at the end of the lists of its watched literals, which have room.
pub fn list_clause(lists: &mut Vec<Vec<u32>>, pair: &Pair, number: u32)
    requires { ListsRoom pair.now (items_of lists.old.items) (rooms_of lists.old.items) }
    ensures size { length lists.new.items ≡ length lists.old.items }
    ensures listed { ListsClause pair.now number
        (items_of lists.old.items) (items_of lists.new.items) }
    ensures rooms { AtMost (rooms_of lists.old.items) (rooms_of lists.new.items) }
{
    if pair.is_watched() {
        append(lists, pair.first, number);
        append(lists, pair.second, number);
    }
}

/// Puts the clause at the end of the literal's list, which has room.
pub fn append(lists: &mut Vec<Vec<u32>>, l: LitCode, number: u32)
    requires inside { code_of l < length lists.old.items }
    requires room { Fits (items_of lists.old.items) (rooms_of lists.old.items) l }
    ensures size { length lists.new.items ≡ length lists.old.items }
    ensures lists { items_of lists.new.items ≡ appended (items_of lists.old.items) l number }
    ensures rooms { AtMost (rooms_of lists.old.items) (rooms_of lists.new.items) }
{
    let list = &mut lists[l.place()];
    list.push_reserved(number);
}
