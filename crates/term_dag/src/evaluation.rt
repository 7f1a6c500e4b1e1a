//! What a term stands for at a point, from a table of what each term up to it stands for.
ghost use Rattle.std.specs.Prelude.{◌≡◌, ◌<◌, IfOk, IfSome, IfNone, length};
ghost use Rattle.bits_core.specs.declared.number.Bits.{Bits as Number};
ghost use Rattle.term_dag.specs.Table.{IsTable};
ghost use Rattle.term_dag.specs.Value.{NodeGives, ReadGives, Values};
ghost use Rattle.term_dag.specs.Width.{OperandsBelow, WidthsAllow, width_of};

use crate::dag::Dag;
use crate::input_bits::input_value;
use crate::node::{Node, Term};
use bits_core::{Bits, Point, apply, extend, slice};
use std::alloc::AllocError;

impl Dag {
    /// What the term stands for at the point, or nothing where the point lacks one of the term's inputs or reads.
    pub fn value_at(&self, t: Term, point: &Point) -> Result<Option<Bits>, AllocError>
        requires { t.number < length self.now }
        ensures some { IfOk result (λ r. IfSome r (Values self.now point.now t)) }
        ensures none { IfOk result (λ r. IfNone r ((b : Number)
            → ¬ Values self.now point.now t b)) }
    {
        let _ = self.len();
        let mut table = Vec::new(self.alloc());
        for number in 0..t.number {
            let value = self.node_value(self.node(Term { number }), point, &table);
            table.push(value)?;
        }
        Ok(self.node_value(self.node(t), point, &table))
    }

    /// What the node gives on the values of the table.
    fn node_value(&self, node: Node, point: &Point, table: &Vec<Option<Bits>>) -> Option<Bits>
        requires table { IsTable self.now point.now table.now.items }
        requires operands { OperandsBelow (length table.now.items) node }
        requires widths { WidthsAllow (width_of self.now) node }
        ensures some { IfSome result (NodeGives (Values self.now point.now) point.now node) }
        ensures none { IfNone result ((b : Number)
            → ¬ NodeGives (Values self.now point.now) point.now node b) }
    {
        match node {
            Node::Constant(bits) => Some(bits),
            Node::Input(first, width) => input_value(point, first, width),
            Node::Read(read, width) => read_value(point, read, width),
            Node::One(op, a) => {
                let bits = self.known(a, point, table)?;
                Some(apply(op, bits, bits))
            }
            Node::Two(op, a, b) => {
                let x = self.known(a, point, table)?;
                let y = self.known(b, point, table)?;
                Some(apply(op, x, y))
            }
            Node::Slice(a, high, low) => Some(slice(self.known(a, point, table)?, high, low)),
            Node::Extend(a, width, signed) => Some(extend(
                self.known(a, point, table)?,
                width,
                signed,
            )),
            Node::Choose(condition, a, b) => {
                let test = self.known(condition, point, table)?;
                let x = self.known(a, point, table)?;
                let y = self.known(b, point, table)?;
                Some(if test.value == 1 { x } else { y })
            }
        }
    }

    /// What the table has of the term.
    fn known(&self, t: Term, point: &Point, table: &Vec<Option<Bits>>) -> Option<Bits>
        requires table { IsTable self.now point.now table.now.items }
        requires within { t.number < length table.now.items }
        ensures some { IfSome result (Values self.now point.now t) }
        ensures width { IfSome result (λ x. x.width ≡ width_of self.now t) }
        ensures none { IfNone result ((b : Number) → ¬ Values self.now point.now t b) }
    {
        let _ = self.len();
        let _ = point;
        table[t.number]
    }
}

/// What the numbered read gives, where it does so in this width.
fn read_value(point: &Point, read: u32, width: u8) -> Option<Bits>
    ensures some { IfSome result (ReadGives point.now read width) }
    ensures none { IfNone result ((b : Number) → ¬ ReadGives point.now read width b) }
{
    let bits = *point.reads.get(read as usize)?;
    if bits.width == width {
        Some(bits)
    } else {
        None
    }
}
