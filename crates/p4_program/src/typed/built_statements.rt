//! The test of the statements of ingress: whether they set the port to a constant or drop the packet.
ghost use Rattle.std.specs.Prelude.{◌≡◌, ◌↔◌, IsTrue, All, [], ◌∷◌};
ghost use Rattle.p4_program.specs.declared.typed.paths.Step.TheVariants.{Field};
ghost use Rattle.p4_program.specs.Built.{egress_spec_field, IsStandard, IsEgressSpec, IsConstant, BuiltWork, BuiltStatement, BuiltStatements};
ghost use Rattle.p4_program.specs.Trees.Expressions.{expression_of};
ghost use Rattle.p4_program.specs.Trees.Statements.{work_of, statement_of, statements_of};

use crate::typed::expressions::Expression;
use crate::typed::paths::{Path, Root, Step};
use crate::typed::statements::{Statement, Work};

/// The place of the standard metadata in the frame of ingress.
const STANDARD_PLACE: u32 = 2;

/// The number of `egress_spec` among the fields of the standard metadata.
const EGRESS_SPEC_FIELD: u32 = 1;

/// Whether each statement sets the port to a constant or drops the packet.
#[tactic(auto, using(crate::proofs::Bodies::built_from, crate::proofs::Bodies::built_each))]
pub(crate) fn built_statements(statements: &[Statement]) -> bool
    ensures { IsTrue result ↔ BuiltStatements (statements_of statements.now) }
{
    each_built(statements)
}

fn each_built(statements: &[Statement]) -> bool
    ensures { IsTrue result ↔ All (λ s. BuiltStatement (statement_of s)) statements.now }
{
    statements.iter().all(built_statement)
}

fn built_statement(statement: &Statement) -> bool
    ensures { IsTrue result ↔ BuiltStatement (statement_of statement.now) }
{
    match statement {
        Statement::Numbered(_, _, work) => built_work(work),
        _ => false,
    }
}

fn built_work(work: &Work) -> bool
    ensures { IsTrue result ↔ BuiltWork (work_of work.now) }
{
    match work {
        Work::Assign(path, value) => is_egress_spec(path) && is_constant(value),
        Work::MarkToDrop(path) => is_standard(path),
        _ => false,
    }
}

fn is_constant(value: &Expression) -> bool
    ensures { IsTrue result ↔ IsConstant (expression_of value.now) }
{
    matches!(value, Expression::Constant(_, _))
}

fn is_standard(path: &Path) -> bool
    ensures { IsTrue result ↔ IsStandard path.now }
{
    path.root == Root::OfBlock(STANDARD_PLACE) && path.steps.is_empty()
}

fn is_egress_spec(path: &Path) -> bool
    ensures { IsTrue result ↔ IsEgressSpec path.now }
{
    path.root == Root::OfBlock(STANDARD_PLACE) && is_egress_spec_field(path.steps.as_slice())
}

fn is_egress_spec_field(steps: &[Step]) -> bool
    ensures { IsTrue result ↔ (steps.now ≡ Field egress_spec_field ∷ []) }
{
    match steps {
        [Step::Field(field)] => *field == EGRESS_SPEC_FIELD,
        _ => false,
    }
}
