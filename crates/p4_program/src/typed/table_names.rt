//! The names of tables.
ghost use Rattle.std.specs.Prelude.{◌≡◌, ◌<◌, length, IfOk, string_bytes};
ghost use Rattle.p4_program.specs.Syntax.Lookup.{name_at};
ghost use Rattle.p4_program.specs.Trees.Programs.{core_of};

use crate::typed::instances::NamedTable;
use crate::typed::program::Program;
use std::alloc::{AllocError, Global};

/// The name of the table of this number, as the control plane has it.
#[tactic(auto, using(crate::proofs::NameLemmas::name_read))]
pub fn table_name(alloc: Global, program: &Program, table: u32) -> Result<String, AllocError>
    requires { table < length program.now.tables }
    ensures { IfOk result (λ s. Some (string_bytes s) ≡ name_at (core_of program.now) table) }
{
    name_of(alloc, &program.tables.as_slice()[table as usize])
}

#[tactic(auto, using(crate::proofs::NameLemmas::utf8_from_ascii))]
fn name_of(alloc: Global, table: &NamedTable) -> Result<String, AllocError>
    ensures { IfOk result (λ s. string_bytes s ≡ table.now.name) }
{
    String::from_utf8_lossy(alloc, table.name.as_slice())
}
