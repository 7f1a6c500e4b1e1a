//! Whether reads are asked for in one width each. No point gives a read in two widths.
ghost use Rattle.std.specs.Prelude.{◌≡◌, ◌<◌, ◌↔◌, IsTrue, length};
ghost use Rattle.term_dag.specs.Marks.{AreMarks};
ghost use Rattle.bit_blaster.specs.Vars.{AreVarsOf, AsksOneWidth, IsCutRead};

use crate::variables::Variables;
use cnf_core::Var;
use term_dag::{Dag, Node, Term};

/// Whether the term asks for no read in two widths: whether no read has a bit past a width in which it is asked for.
pub(crate) fn asks_one_width(dag: &Dag, t: Term, marks: &Vec<bool>, variables: &Variables) -> bool
    requires within { t.number < length dag.now }
    requires marks { AreMarks dag.now t marks.now.items }
    requires vars { AreVarsOf dag.now t variables.now }
    ensures { IsTrue result ↔ AsksOneWidth dag.now t }
{
    let _ = t;
    for number in 0..marks.len() {
        if marks[number] && is_cut_read(dag.node(Term { number }), variables) {
            return false;
        }
    }
    true
}

/// Whether the node is a read of which there is a bit past the node's width.
fn is_cut_read(node: Node, variables: &Variables) -> bool
    ensures { IsTrue result ↔ IsCutRead variables.now node }
{
    match node {
        Node::Read(read, width) => variables.has(Var::Read(read, width as u32)),
        _ => false,
    }
}
