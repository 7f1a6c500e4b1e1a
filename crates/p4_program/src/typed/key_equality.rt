//! Whether two entries have the same keys.
ghost use Rattle.std.specs.Prelude.{◌≡◌, ◌↔◌, IsTrue};
ghost use Rattle.std.specs.List.{AllZip};

use crate::typed::tables::Pattern;
use bits_core::Bits;

#[tactic(auto, using(crate::proofs::Zips::same_items, crate::proofs::Zips::items_same))]
pub(crate) fn same_keys(one: &[Pattern], other: &[Pattern]) -> bool
    ensures { IsTrue result ↔ (one.now ≡ other.now) }
{
    same_each(one, other)
}

#[tactic(auto, using(crate::proofs::Zips::all_zip_long, crate::proofs::Zips::all_zip_at, crate::proofs::Zips::all_zip_from))]
fn same_each(one: &[Pattern], other: &[Pattern]) -> bool
    ensures { IsTrue result ↔ AllZip (λ x y. x ≡ y) one.now other.now }
{
    if one.len() != other.len() {
        return false;
    }
    for (pattern, counterpart) in one.iter().zip(other) {
        if !same_pattern(*pattern, *counterpart) {
            return false;
        }
    }
    true
}

fn same_pattern(one: Pattern, other: Pattern) -> bool
    ensures { IsTrue result ↔ (one ≡ other) }
{
    match (one, other) {
        (Pattern::Exact(a), Pattern::Exact(b)) => same_bits(a, b),
        (Pattern::Prefix(a, m), Pattern::Prefix(b, n)) => m == n && same_bits(a, b),
        (Pattern::Masked(a, m), Pattern::Masked(b, n)) => same_bits(a, b) && same_bits(m, n),
        _ => false,
    }
}

#[tactic(auto, using(bits_core::proofs::NumberLaws::same_fields))]
fn same_bits(one: Bits, other: Bits) -> bool
    ensures { IsTrue result ↔ (one ≡ other) }
{
    one.width == other.width && one.value == other.value
}
