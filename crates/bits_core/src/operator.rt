//! The operators, their shapes, and the one table of both.

/// An operator on numbers of fixed width, as P4-16 has them on `bit<W>` and `int<W>`. Where the two types differ the name
/// ends in U for the unsigned one and S for the signed one; `Sat` saturates in place of wrapping.
#[derive(Clone, Copy, Debug, PartialEq, Eq, PartialOrd, Ord, Hash)]
pub enum Op {
    Add,
    Sub,
    Mul,
    AddSatU,
    SubSatU,
    AddSatS,
    SubSatS,
    And,
    Or,
    Xor,
    Not,
    Neg,
    Shl,
    ShrU,
    ShrS,
    Cat,
    Eq,
    LtU,
    LeU,
    LtS,
    LeS,
}

/// What an operator takes and gives.
#[derive(Clone, Copy, Debug, PartialEq, Eq, PartialOrd, Ord, Hash)]
pub enum OpShape {
    /// The result is as wide as the one operand.
    One,
    /// The result and both operands are equally wide.
    Same,
    /// The result is as wide as the first operand, and the second may have any width.
    Shift,
    /// The result is as wide as both operands together.
    Join,
    /// The operands are equally wide, and the result has one bit.
    Test,
}

/// A row of the operator table.
#[derive(Clone, Copy, Debug, PartialEq, Eq)]
pub struct OpRow {
    pub op: Op,
    pub shape: OpShape,
}

/// A table of operators.
#[derive(Clone, Copy, Debug, PartialEq, Eq)]
pub struct Table<const N: usize> {
    pub rows: [OpRow; N],
}

/// Passes the rows of the operator table to the macro `$then`, after `$arguments`. A row is an operator, its shape and the
/// name of the function that does its work, which is one name in every crate. A crate with a function for each row writes
/// in its body
///
/// ```text
/// macro_rules! circuit_rows {
///     (($of:ident) $($op:ident $shape:ident $function:ident,)*) => {
///         match $of { $(Op::$op => $function()),* }
///     };
/// }
/// operator_rows!(circuit_rows(op))
/// ```
///
/// where a row that is missing leaves the `match` without an arm, and a function that is missing has no name.
#[macro_export]
macro_rules! operator_rows {
    ($then:ident $arguments:tt) => {
        $then!(
            $arguments
            Add Same add,
            Sub Same subtract,
            Mul Same multiply,
            AddSatU Same add_saturating_unsigned,
            SubSatU Same subtract_saturating_unsigned,
            AddSatS Same add_saturating_signed,
            SubSatS Same subtract_saturating_signed,
            And Same and,
            Or Same or,
            Xor Same xor,
            Not One not,
            Neg One negate,
            Shl Shift shift_left,
            ShrU Shift shift_right_unsigned,
            ShrS Shift shift_right_signed,
            Cat Join concatenate,
            Eq Test equal,
            LtU Test less_unsigned,
            LeU Test less_equal_unsigned,
            LtS Test less_signed,
            LeS Test less_equal_signed,
        )
    };
}

macro_rules! table_of {
    (() $($op:ident $shape:ident $function:ident,)*) => {
        Table { rows: [$(OpRow { op: Op::$op, shape: OpShape::$shape }),*] }
    };
}

/// The 21 operators in the order of [`Op`].
pub const OPERATORS: Table<21> = operator_rows!(table_of());

macro_rules! shape_of {
    (($of:expr) $($op:ident $shape:ident $function:ident,)*) => {
        match $of { $(Op::$op => OpShape::$shape),* }
    };
}

impl Op {
    ghost use Rattle.std.specs.Prelude.{◌≡◌};
    ghost use Rattle.bits_core.specs.Operator.{shape_of};

    /// What the operator takes and gives.
    pub fn shape(self) -> OpShape
        ensures { result ≡ shape_of self }
    {
        operator_rows!(shape_of(self))
    }
}
