//! The source of a number and a size.
ghost use Rattle.std.specs.Prelude.{◌≡◌, ◌++◌, ◌%◌, ◌<◌, ◌↔◌, IsTrue, OnOk, IfOk, string_bytes};
ghost use Rattle.load_maker.specs.Source.{ports, most_branches, IsSize, own_port_branch, no_port_branch, two_ports_branch, unset_field_branch, branch, draws_of, load_source};
ghost use Rattle.load_maker.specs.Words.{after_words, word_at};

use rand_core::utils::NextWord;
use rand_pcg::Lcg64Xsh32;
use std::alloc::{AllocError, Global};

/// The most branches of a source.
pub const MAX_SIZE: u32 = 1_000;

/// Ports are drawn below this number, so that the port after one is still a port of inputs.
const PORTS: u32 = 510;

/// How many values a field of the struct has.
const VALUES: u32 = 256;

/// What stands before the branches.
const HEAD: &str =
    "#include <core.p4>\n#include <v1model.p4>\nstruct H { }\nstruct M { bit<8> u; bit<8> y; }\nparser P(packet_in b, out H h, inout M m, inout standard_metadata_t s) {\n  state start { transition accept; }\n}\ncontrol V(inout H h, inout M m) { apply { } }\ncontrol I(inout H h, inout M m, inout standard_metadata_t s) {\n  apply {\n    s.egress_spec = 1;\n";

/// What stands after them.
const TAIL: &str =
    "  }\n}\ncontrol E(inout H h, inout M m, inout standard_metadata_t s) { apply { } }\ncontrol C(inout H h, inout M m) { apply { } }\ncontrol D(packet_out b, in H h) { apply { } }\nV1Switch(P(), V(), I(), E(), C(), D()) main;\n";

/// Whether a source can have so many branches.
pub fn is_size(size: u32) -> bool
    ensures { IsTrue result ↔ IsSize size }
{
    1 <= size && size <= MAX_SIZE
}

/// The source with so many branches, whose numbers are drawn from the generator that starts at `number`.
pub fn make_source(alloc: Global, number: u64, size: u32) -> Result<Vec<u8>, AllocError>
    requires { IsSize size }
    ensures { IfOk result (λ bytes. bytes.items ≡ load_source number size) }
{
    let mut words = Lcg64Xsh32::new(number, 0);
    let base = draw(&mut words, PORTS);
    let mut text = String::from_str(alloc, HEAD)?;
    for place in 0..size {
        push_branch(&mut text, &mut words, base, place)?;
    }
    text.push_str(TAIL)?;
    Ok(text.into_bytes())
}

/// Adds the branch of a place.
#[tactic(auto, unfolding(crate::specs::Words::after_words))]
fn push_branch(
    text: &mut String,
    words: &mut Lcg64Xsh32,
    base: u32,
    place: u32,
) -> Result<(), AllocError>
    requires base { base < ports }
    requires place { place < most_branches }
    ensures branch { OnOk result
        (string_bytes text.new ≡ string_bytes text.old ++ branch base (word_at words.old) place) }
    ensures words { words.new ≡ after_words (draws_of place) words.old }
{
    match place % 4 {
        0 => {
            let port = 1 + (base + place / 4) % PORTS;
            let value = draw(words, VALUES);
            push_own_port(text, port, value)
        }
        1 => {
            let value = draw(words, VALUES);
            push_no_port(text, value)
        }
        2 => {
            let port = draw(words, PORTS);
            let value = draw(words, VALUES);
            push_two_ports(text, port, value)
        }
        _ => {
            let field = draw(words, VALUES);
            let value = draw(words, VALUES);
            push_unset_field(text, field, value)
        }
    }
}

/// A branch for one port.
fn push_own_port(text: &mut String, port: u32, value: u32) -> Result<(), AllocError>
    ensures { OnOk result
        (string_bytes text.new ≡ string_bytes text.old ++ own_port_branch port value) }
{
    write!(text, "    if (s.ingress_port == {port}) m.y = {value};\n")
}

/// A branch for a port that no input has.
fn push_no_port(text: &mut String, value: u32) -> Result<(), AllocError>
    ensures { OnOk result (string_bytes text.new ≡ string_bytes text.old ++ no_port_branch value) }
{
    write!(text, "    if (s.ingress_port > 510) m.y = {value};\n")
}

/// A branch for two ports at once.
fn push_two_ports(text: &mut String, port: u32, value: u32) -> Result<(), AllocError>
    requires { port < ports }
    ensures { OnOk result
        (string_bytes text.new ≡ string_bytes text.old ++ two_ports_branch port value) }
{
    let next = port + 1;
    write!(
        text,
        "    if (s.ingress_port == {port} && s.ingress_port == {next}) m.y = {value};\n"
    )
}

/// A branch that an unset field decides.
fn push_unset_field(text: &mut String, field: u32, value: u32) -> Result<(), AllocError>
    ensures { OnOk result
        (string_bytes text.new ≡ string_bytes text.old ++ unset_field_branch field value) }
{
    write!(text, "    if (m.u == {field}) m.y = {value};\n")
}

/// The next word's remainder by a number.
#[tactic(auto, unfolding(crate::specs::Words::after_words))]
fn draw(words: &mut Lcg64Xsh32, below: u32) -> u32
    requires { 0 < below }
    ensures value { result ≡ word_at words.old 0 % below }
    ensures words { words.new ≡ after_words 1 words.old }
{
    words.next_word() % below
}
