//! Programs: numbered statements with their places in the source.
ghost use Rattle.std.specs.Prelude.{◌≡◌, ◌≤◌, All, length, map};
ghost use Rattle.p4_program.specs.declared.program.TheConstants.{MAX_STATEMENTS};
ghost use Rattle.p4_program.specs.Numbered.{number_of, numbers_from};
ghost use Rattle.p4_program.specs.Placed.{IsPlaced};

use crate::v1model::EgressSpec;
use sqlite_items::Items;
use tg_base::Span;

/// The most statements that a program has.
pub const MAX_STATEMENTS: usize = 2_000;

/// What a statement does.
#[derive(Clone, Copy, Debug)]
pub enum StatementKind {
    /// The assignment of a constant to `egress_spec`.
    AssignEgressSpec(EgressSpec),
    /// The call of the extern `mark_to_drop`.
    MarkToDrop,
}

/// A statement with its number, at the place of its first token.
#[derive(Clone, Copy, Debug)]
pub struct Statement {
    pub number: u32,
    pub place: Span,
    pub kind: StatementKind,
}

/// A program: the statements of its ingress block in order, numbered from 1.
#[derive(Debug, Drop)]
pub struct Program {
    pub statements: Items<Statement>,
    ghost within: { length statements ≤ MAX_STATEMENTS },
    ghost numbered: { map number_of statements ≡ numbers_from 1 (length statements) },
    ghost placed: { All IsPlaced statements },
}
