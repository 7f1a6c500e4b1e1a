//! Terms, and the nodes that they number.
use bits_core::{Bits, Op};

/// The number of a node of a [`Dag`](crate::Dag).
#[derive(Clone, Copy, Debug, PartialEq, Eq, Hash)]
pub struct Term {
    pub number: usize,
}

/// What a term is made of. Its operands have smaller numbers.
#[derive(Clone, Copy, Debug, PartialEq, Eq, Hash)]
pub enum Node {
    /// A number.
    Constant(Bits),
    /// The input's bits from this one on, the first most significant, and how many.
    Input(u32, u8),
    /// What the read of this number gives, and its width.
    Read(u32, u8),
    /// An operator of one operand.
    One(Op, Term),
    /// An operator of two operands.
    Two(Op, Term, Term),
    /// The bits from a high place down to a low one.
    Slice(Term, u8, u8),
    /// The operand widened or cut to a width, with its sign or without.
    Extend(Term, u8, bool),
    /// The second where the first, of one bit, is 1, and else the third.
    Choose(Term, Term, Term),
}
