//! Where the parts in parentheses end that may follow an annotation.
ghost use Rattle.std.specs.Prelude.{◌≡◌, ◌∷◌, ◌++◌, [], None, IfOk, MatchOption, codes, map};
ghost use Rattle.std.specs.List.{All};
ghost use Rattle.p4_lexer.specs.SourceWords.{Placed};
ghost use Rattle.p4_lexer.specs.Replacement.{Word, Replaced};
ghost use Rattle.p4_lexer.specs.Annotations.{IsSignOf};
ghost use Rattle.p4_lexer.specs.Extents.{IsIn, bytes_at, placed_at, item_at};
ghost use Rattle.p4_lexer.specs.Groups.{IsParenthesis, IsItemIn, AreEnds};

use crate::extents::{Extent, Item, WordAt, bytes_of};
use crate::piece::Kind;
use sqlite_items::Items;
use std::alloc::{AllocError, Global};

/// Which parenthesis a word is.
#[derive(Clone, Copy)]
pub(crate) enum Parenthesis {
    Opening,
    Closing,
    Neither,
}

/// For each item, where the group ends that begins there, if one does: the index behind the partner
/// of the first word's parenthesis.
pub(crate) fn group_ends(
    alloc: Global,
    text: &[u8],
    items: &[Item],
) -> Result<Items<Option<usize>>, AllocError>
    requires { All (IsItemIn text.now) items.now }
    ensures { IfOk result (λ ends. AreEnds (map (item_at text.now) items.now) ends) }
{
    let mut ends = Items::from_vec(vec![in alloc; None; items.len()]?);
    let mut closed = Items::new(alloc);
    let mut end = None;
    let mut at = items.len();
    while at > 0 {
        end = group_end(text, items[at - 1], at, end, &mut closed)?;
        at -= 1;
        ends.set(at, end);
    }
    Ok(ends)
}

/// Where the group ends that begins with this item, from the end of one that begins behind it, and
/// the indices behind each `)` there that has no partner, the nearest last.
fn group_end(
    text: &[u8],
    item: Item,
    behind: usize,
    end: Option<usize>,
    closed: &mut Items<usize>,
) -> Result<Option<usize>, AllocError>
    requires { IsItemIn text.now item }
    ensures name { (name : Placed) → item_at text.now item ≡ Replaced name
        → IfOk result (λ found. (found ≡ end) × (closed.new ≡ closed.old)) }
    ensures opening { (w : Placed) → item_at text.now item ≡ Word w → IsSignOf (codes "(") w
        → IfOk result (λ found. MatchOption found ((closed.old ≡ []) × (closed.new ≡ []))
        (λ last. closed.old ≡ closed.new ++ last ∷ [])) }
    ensures closing { (w : Placed) → item_at text.now item ≡ Word w → IsSignOf (codes ")") w
        → IfOk result (λ found. (found ≡ None) × (closed.new ≡ closed.old ++ behind ∷ [])) }
    ensures neither { (w : Placed) → item_at text.now item ≡ Word w
        → (IsSignOf (codes "(") w → ⊥) → (IsSignOf (codes ")") w → ⊥)
        → IfOk result (λ found. (found ≡ None) × (closed.new ≡ closed.old)) }
{
    let Item::Word(word) = item else {
        return Ok(end);
    };
    match parenthesis_of(text, word) {
        Parenthesis::Opening => Ok(closed.pop()),
        Parenthesis::Closing => {
            closed.push(behind)?;
            Ok(None)
        }
        Parenthesis::Neither => Ok(None),
    }
}

fn parenthesis_of(text: &[u8], word: WordAt) -> Parenthesis
    requires { IsIn text.now word.piece.extent }
    ensures { IsParenthesis result (placed_at text.now word) }
{
    if word.piece.kind != Kind::Sign {
        return Parenthesis::Neither;
    }
    match bytes_of(text, word.piece.extent) {
        [b'('] => Parenthesis::Opening,
        [b')'] => Parenthesis::Closing,
        _ => Parenthesis::Neither,
    }
}
