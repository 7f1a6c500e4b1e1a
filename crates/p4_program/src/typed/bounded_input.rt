//! The test of inputs: whether the bounds and the tables of a program allow them.
ghost use Rattle.std.specs.Prelude.{◌≡◌, ◌↔◌, IsTrue, All, AllPairs};
ghost use Rattle.p4_program.specs.BoundedInput.{BoundedInput, BoundedPacket, BoundedEntries, HasFew, entries_of};
ghost use Rattle.p4_program.specs.Entries.{EntryFits, Apart};
ghost use Rattle.p4_program.specs.Syntax.Lookup.{ordered_at};
ghost use Rattle.p4_program.specs.Trees.Programs.{core_of};

use crate::bounds::Bounds;
use crate::input::MAX_PORT;
use crate::typed::entries::entry_fits;
use crate::typed::input::{Entry, Input};
use crate::typed::key_equality::same_keys;
use crate::typed::program::Program;

/// Whether the bounds allow the input for this program, without memory.
///
/// The work is linear in the entries. A table has at most `MAX_ENTRIES` of them, and a program at most `MAX_TABLES` tables, so
/// at most 256 entries come before one of a table that has too many, at which `few_entries` stops, and `all_apart` compares
/// at most so many with each other, since it runs where no table has too many.
pub fn bounded(program: &Program, bounds: Bounds, input: &Input) -> bool
    ensures { IsTrue result ↔ BoundedInput (core_of program.now) bounds input.now }
{
    packet_bounded(bounds, input)
        && entries_bounded(program, bounds.entries, input.entries.as_slice())
}

fn packet_bounded(bounds: Bounds, input: &Input) -> bool
    ensures { IsTrue result ↔ BoundedPacket bounds input.now }
{
    let packet = input.packet.as_slice();
    input.port <= MAX_PORT && !packet.is_empty() && packet.len() <= usize::from(bounds.bytes)
}

fn entries_bounded(program: &Program, limit: u8, entries: &[Entry]) -> bool
    ensures { IsTrue result ↔ BoundedEntries (core_of program.now) limit entries.now }
{
    if !entries_fit(program, entries) {
        return false;
    }
    few_entries(limit, entries) && all_apart(program, entries)
}

fn entries_fit(program: &Program, entries: &[Entry]) -> bool
    ensures { IsTrue result ↔ All (EntryFits (core_of program.now)) entries.now }
{
    entries.iter().all(|entry| entry_fits(program, entry))
}

fn number_of_entries(table: u32, entries: &[Entry]) -> usize
    ensures { result ≡ entries_of table entries.now }
{
    entries.iter().filter(|entry| entry.table == table).count()
}

fn has_few(limit: u8, entries: &[Entry], entry: &Entry) -> bool
    ensures { IsTrue result ↔ HasFew limit entries.now entry.now }
{
    number_of_entries(entry.table, entries) <= usize::from(limit)
}

fn few_entries(limit: u8, entries: &[Entry]) -> bool
    ensures { IsTrue result ↔ All (HasFew limit entries.now) entries.now }
{
    for entry in entries {
        if !has_few(limit, entries, entry) {
            return false;
        }
    }
    true
}

fn is_ordered(program: &Program, table: u32) -> bool
    ensures { result ≡ ordered_at (core_of program.now) table }
{
    match program.table(table) {
        Some(table) => table.is_ordered(),
        None => false,
    }
}

fn are_apart(program: &Program, one: &Entry, other: &Entry) -> bool
    ensures { IsTrue result ↔ Apart (core_of program.now) one.now other.now }
{
    if one.table != other.table {
        return true;
    }
    if is_ordered(program, one.table) {
        one.priority != other.priority
    } else {
        !same_keys(one.keys.as_slice(), other.keys.as_slice())
    }
}

fn is_apart_from(program: &Program, one: &Entry, others: &[Entry]) -> bool
    ensures { IsTrue result ↔ All (Apart (core_of program.now) one.now) others.now }
{
    others.iter().all(|other| are_apart(program, one, other))
}

fn all_apart(program: &Program, entries: &[Entry]) -> bool
    ensures { IsTrue result ↔ AllPairs (Apart (core_of program.now)) entries.now }
{
    for (i, entry) in entries.iter().enumerate() {
        if !is_apart_from(program, entry, &entries[i + 1..]) {
            return false;
        }
    }
    true
}
