//! Tests of types (P4-16, "Base types", "Derived types").
ghost use Rattle.std.specs.Prelude.{◌≡◌};
ghost use Rattle.p4_rules.specs.declared.types.SourceType.TheVariants.{Opaque};
ghost use Rattle.p4_rules.specs.Types.{same_object as same_object_by_rules, same_type as same_type_by_rules, is_sized as is_sized_by_rules, is_run_time as is_run_time_by_rules, is_scalar as is_scalar_by_rules, may_be_in_header as may_be_in_header_by_rules, header_bits as header_bits_by_rules, bit_width as bit_width_by_rules};

use p4_rules::{Object, SourceType};

/// One type: a struct, a header or an enumeration is the same as itself alone.
pub fn same_type(t: SourceType, u: SourceType) -> bool
    ensures { result ≡ same_type_by_rules t u }
{
    match t {
        SourceType::Bit(v) => matches!(u, SourceType::Bit(w) if v == w),
        SourceType::Signed(v) => matches!(u, SourceType::Signed(w) if v == w),
        SourceType::Integer => matches!(u, SourceType::Integer),
        SourceType::Boolean => matches!(u, SourceType::Boolean),
        SourceType::Error => matches!(u, SourceType::Error),
        SourceType::Enumeration(m) => matches!(u, SourceType::Enumeration(n) if m == n),
        SourceType::BitEnumeration(m, _) => matches!(u, SourceType::BitEnumeration(n, _) if m == n),
        SourceType::Structure(m) => matches!(u, SourceType::Structure(n) if m == n),
        SourceType::Header(m) => matches!(u, SourceType::Header(n) if m == n),
        SourceType::Stack(m, k) => matches!(u, SourceType::Stack(n, l) if m == n && k == l),
        SourceType::Opaque(a) => same_opaque(a, u),
    }
}

/// Whether a type is that of this object.
fn same_opaque(a: Object, u: SourceType) -> bool
    ensures { result ≡ same_type_by_rules (Opaque a) u }
{
    match u {
        SourceType::Opaque(b) => same_object(a, b),
        _ => false,
    }
}

pub(crate) fn same_object(a: Object, b: Object) -> bool
    ensures { result ≡ same_object_by_rules a b }
{
    match a {
        Object::PacketIn => matches!(b, Object::PacketIn),
        Object::PacketOut => matches!(b, Object::PacketOut),
        Object::Counter => matches!(b, Object::Counter),
        Object::DirectCounter => matches!(b, Object::DirectCounter),
        Object::Meter => matches!(b, Object::Meter),
        Object::Register => matches!(b, Object::Register),
        Object::Package => matches!(b, Object::Package),
        Object::ParserType(m) => matches!(b, Object::ParserType(n) if m == n),
        Object::ControlType(m) => matches!(b, Object::ControlType(n) if m == n),
    }
}

/// `bit<w>` or `int<w>`.
pub fn is_sized(t: SourceType) -> bool
    ensures { result ≡ is_sized_by_rules t }
{
    matches!(t, SourceType::Bit(_) | SourceType::Signed(_))
}

/// A type of values that a run can hold.
pub fn is_run_time(t: SourceType) -> bool
    ensures { result ≡ is_run_time_by_rules t }
{
    !matches!(t, SourceType::Integer | SourceType::Opaque(_))
}

/// A value that is no struct, header or stack.
pub fn is_scalar(t: SourceType) -> bool
    ensures { result ≡ is_scalar_by_rules t }
{
    match t {
        SourceType::Structure(_) | SourceType::Header(_) | SourceType::Stack(_, _) => false,
        SourceType::Opaque(_) | SourceType::Integer => false,
        _ => true,
    }
}

/// "Header types": a field is of `bit`, `int`, `bool` or an enumeration over bits.
pub fn may_be_in_header(t: SourceType) -> bool
    ensures { result ≡ may_be_in_header_by_rules t }
{
    match t {
        SourceType::Bit(_) | SourceType::Signed(_) | SourceType::Boolean => true,
        SourceType::BitEnumeration(_, _) => true,
        _ => false,
    }
}

/// The bits of a scalar in a header.
pub fn header_bits(t: SourceType) -> u8
    ensures { result ≡ header_bits_by_rules t }
{
    match t {
        SourceType::Bit(width) => width,
        SourceType::Signed(width) => width,
        SourceType::Boolean => 1,
        SourceType::BitEnumeration(_, width) => width,
        _ => 0,
    }
}

/// The width of a value of this type where a rule wants `bit`.
pub fn bit_width(t: SourceType) -> Option<u8>
    ensures { result ≡ bit_width_by_rules t }
{
    match t {
        SourceType::Bit(width) => Some(width),
        SourceType::BitEnumeration(_, width) => Some(width),
        _ => None,
    }
}
