//! The faults that judgements note, of which the first by pass, place and code is kept.
ghost use Rattle.std.specs.Prelude.{◌≡◌, None};
ghost use Rattle.p4_rules.specs.Faults.{order_of, pass_number, comes_first as comes_first_of, earlier as earlier_fault};
ghost use Rattle.p4_consts.specs.Noted.{first_with};

use p4_rules::{Fault, Pass};
use tg_base::{Code, Span};

/// The first of the faults that were noted.
#[derive(Clone, Copy, Debug, PartialEq, Eq)]
pub struct Faults {
    pub first: Option<Fault>,
}

impl Faults {
    /// No fault.
    pub fn new() -> Self
        ensures { result.first ≡ None }
    {
        Faults { first: None }
    }

    /// Notes one more fault.
    pub fn note(&mut self, pass: Pass, code: Code, place: Span)
        ensures { self.new.first ≡
            first_with self.old.first (record { pass = pass; code = code; place = place }) }
    {
        let fault = Fault { pass, code, place };
        self.first = match self.first {
            Some(first) => Some(earlier(first, fault)),
            None => Some(fault),
        };
    }
}

/// The fault that decides of two.
fn earlier(one: Fault, other: Fault) -> Fault
    ensures { result ≡ earlier_fault one other }
{
    if comes_first(one, other) { one } else { other }
}

/// Whether a fault comes before another, or at its place and not behind it.
fn comes_first(one: Fault, other: Fault) -> bool
    ensures { result ≡ comes_first_of (order_of one) (order_of other) }
{
    let (pass, later) = (number(one.pass), number(other.pass));
    if pass != later {
        return pass < later;
    }
    let (place, another) = (one.place, other.place);
    if place.line != another.line {
        return place.line < another.line;
    }
    if place.column != another.column {
        return place.column < another.column;
    }
    one.code.number() <= other.code.number()
}

/// The place of a pass among the passes.
fn number(pass: Pass) -> u8
    ensures { result ≡ pass_number pass }
{
    match pass {
        Pass::Folding => 0,
        Pass::Checking => 1,
    }
}
