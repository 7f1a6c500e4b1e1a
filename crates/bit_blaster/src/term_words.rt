//! The words of terms: for each node the circuit of what it gives on its operands' words.
ghost use Rattle.std.specs.Prelude.{◌≡◌, ◌<◌, suc, IfOk, Some, length, map, slice_get};
ghost use Rattle.std.specs.List.{Contains};
ghost use Rattle.bits_core.specs.BitList.{bits_of};
ghost use Rattle.cnf_core.specs.declared.derivation.Var.{Var as Variable};
ghost use Rattle.term_dag.specs.Marks.{AreMarks};
ghost use Rattle.term_dag.specs.Width.{IsDag, OperandsBelow, WidthsAllow, width_of};
ghost use Rattle.term_dag.specs.declared.node.Node.TheVariants.{Input as InputNode, Read as ReadNode};
ghost use Rattle.bit_blaster.specs.Netlist.{Extends};
ghost use Rattle.bit_blaster.specs.TermWord.{AreWiresOf, HasOperandWords, IsNodeWord, IsWordTable, input_bits, read_bits};
ghost use Rattle.bit_blaster.specs.Vars.{AreVarsOf, Names};
ghost use Rattle.bit_blaster.specs.declared.wire.Wire.TheVariants.{Known as KnownWire};

use crate::circuit::Circuit;
use crate::circuits::operate;
use crate::circuits::parts::{choose, extend, slice};
use crate::variables::Variables;
use crate::wire::Wire;
use bits_core::Bits;
use cnf_core::Var;
use sqlite_items::Items;
use std::alloc::{AllocError, Global};
use term_dag::{Dag, Node, Term};

/// The words of what the term is made of, by the terms' numbers. What the term is not made of has an empty word.
pub(crate) fn words_of(
    circuit: &mut Circuit,
    dag: &Dag,
    t: Term,
    marks: &Vec<bool>,
    variables: &Variables,
) -> Result<Vec<Items<Wire>>, AllocError>
    requires within { t.number < length dag.now }
    requires marks { AreMarks dag.now t marks.now.items }
    requires vars { AreVarsOf dag.now t variables.now }
    requires inputs { circuit.old.inputs ≡ length variables.now }
    ensures extends { Extends circuit.old circuit.new }
    ensures long { IfOk result (λ table. length table.items ≡ suc t.number) }
    ensures words { IfOk result (λ table. IsWordTable dag.now variables.now circuit.new
        marks.now.items table.items) }
{
    let _ = dag.len();
    let mut table = Vec::new(circuit.alloc());
    for number in 0..t.number + 1 {
        let word = if marks[number] {
            node_word(circuit, dag, variables, dag.node(Term { number }), &table)?
        } else {
            Vec::new(circuit.alloc())
        };
        table.push(Items::from_vec(word))?;
    }
    Ok(table)
}

/// The word of a node, from the words of its operands.
fn node_word(
    circuit: &mut Circuit,
    dag: &Dag,
    variables: &Variables,
    node: Node,
    table: &Vec<Items<Wire>>,
) -> Result<Vec<Wire>, AllocError>
    requires operands { OperandsBelow (length table.now.items) node }
    requires widths { WidthsAllow (width_of dag.now) node }
    requires terms { length table.now.items < length dag.now }
    requires inputs { circuit.old.inputs ≡ length variables.now }
    requires named { (v : Variable) → Names node v → Contains variables.now v }
    requires words { HasOperandWords dag.now variables.now circuit.old node table.now.items }
    ensures extends { Extends circuit.old circuit.new }
    ensures word { IfOk result (λ r. IsNodeWord dag.now variables.now circuit.new node r.items) }
{
    let _ = dag.len();
    let alloc = circuit.alloc();
    match node {
        Node::Constant(bits) => constant_word(alloc, bits),
        Node::Input(first, width) => input_word(alloc, variables, first, width),
        Node::Read(read, width) => read_word(alloc, variables, read, width),
        Node::One(op, a) => {
            let word = word_at(table, a);
            operate(circuit, op, word, word)
        }
        Node::Two(op, a, b) => operate(circuit, op, word_at(table, a), word_at(table, b)),
        Node::Slice(a, high, low) => slice(circuit, word_at(table, a), high, low),
        Node::Extend(a, width, signed) => extend(circuit, word_at(table, a), width, signed),
        Node::Choose(condition, a, b) => choose(
            circuit,
            word_at(table, condition),
            word_at(table, a),
            word_at(table, b),
        ),
    }
}

/// What the table has of the term.
fn word_at(table: &Vec<Items<Wire>>, t: Term) -> &[Wire]
    requires { t.number < length table.now.items }
    ensures { slice_get table.now.items t.number ≡ Some result.now }
{
    table[t.number].as_slice()
}

/// The bits of a number.
fn constant_word(alloc: Global, bits: Bits) -> Result<Vec<Wire>, AllocError>
    ensures { IfOk result (λ word. word.items ≡ map KnownWire (bits_of bits.width bits.value)) }
{
    let mut rest = bits.value;
    let mut word = Vec::new(alloc);
    for _ in 0..bits.width {
        word.push(Wire::Known(rest % 2 == 1))?;
        rest /= 2;
    }
    Ok(word)
}

#[tactic(auto, using(crate::proofs::TermWordLemmas::wires_of_none, crate::proofs::TermWordLemmas::next_input_wire))]
/// The variables of so many input bits from this one on, the last first.
fn input_word(
    alloc: Global,
    variables: &Variables,
    first: u32,
    width: u8,
) -> Result<Vec<Wire>, AllocError>
    requires { (v : Variable) → Names (InputNode first width) v → Contains variables.now v }
    ensures { IfOk result (λ word. AreWiresOf variables.now word.items (input_bits first width)) }
{
    let mut word = Vec::new(alloc);
    for place in 0..width {
        match first.checked_add((width - 1 - place) as u32) {
            Some(bit) => word.push(variables.wire(Var::Input(bit)))?,
            None => return Err(AllocError),
        }
    }
    Ok(word)
}

#[tactic(auto, using(crate::proofs::TermWordLemmas::wires_of_none, crate::proofs::TermWordLemmas::next_read_wire))]
/// The variables of a read's bits.
fn read_word(
    alloc: Global,
    variables: &Variables,
    read: u32,
    width: u8,
) -> Result<Vec<Wire>, AllocError>
    requires { (v : Variable) → Names (ReadNode read width) v → Contains variables.now v }
    ensures { IfOk result (λ word. AreWiresOf variables.now word.items (read_bits read 0 width)) }
{
    let mut word = Vec::new(alloc);
    for place in 0..width {
        word.push(variables.wire(Var::Read(read, place as u32)))?;
    }
    Ok(word)
}
