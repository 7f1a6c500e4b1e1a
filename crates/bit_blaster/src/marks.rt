//! Which terms a term is made of.
ghost use Rattle.std.specs.Prelude.{◌≡◌, ◌<◌, IfOk, length, slice_set, true};
ghost use Rattle.term_dag.specs.Marks.{AreMarks, MarksOperands};
ghost use Rattle.term_dag.specs.Width.{OperandsBelow};

use std::alloc::{AllocError, Global};
use term_dag::{Dag, Node, Term};

/// A mark for each term up to this one: whether it is one of those that the term is made of.
pub(crate) fn marks_of(alloc: Global, dag: &Dag, t: Term) -> Result<Vec<bool>, AllocError>
    requires { t.number < length dag.now }
    ensures { IfOk result (λ marks. AreMarks dag.now t marks.items) }
{
    let _ = dag.len();
    let mut marks = vec![in alloc; false; t.number + 1]?;
    marks[t.number] = true;
    for done in 0..t.number + 1 {
        let number = t.number - done;
        if marks[number] {
            mark_operands(dag.node(Term { number }), &mut marks);
        }
    }
    Ok(marks)
}

/// Marks the node's operands.
fn mark_operands(node: Node, marks: &mut Vec<bool>)
    requires { OperandsBelow (length marks.old.items) node }
    ensures { MarksOperands node marks.old.items marks.new.items }
{
    match node {
        Node::Constant(_) | Node::Input(..) | Node::Read(..) => {}
        Node::One(_, a) | Node::Slice(a, ..) | Node::Extend(a, ..) => mark(a, marks),
        Node::Two(_, a, b) => {
            mark(a, marks);
            mark(b, marks);
        }
        Node::Choose(condition, a, b) => {
            mark(condition, marks);
            mark(a, marks);
            mark(b, marks);
        }
    }
}

fn mark(t: Term, marks: &mut Vec<bool>)
    requires { t.number < length marks.old.items }
    ensures { marks.new.items ≡ slice_set marks.old.items t.number true }
{
    marks[t.number] = true;
}
