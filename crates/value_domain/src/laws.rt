//! Laws for code that is generic over a domain, each the contract of a function that does nothing. The lemmas of the same
//! content are in `proofs/ExtendsLaws.antt` and `proofs/CellsLaws.antt`, where a proof takes them from.
ghost use Rattle.std.specs.Prelude.{◌≡◌, ℕ, ◌<◌, ◌↔◌, Bool, List, ◌++◌, length, take, drop, slice_index_or, slice_set};
ghost use Rattle.bits_core.specs.declared.points.Point.{Point};
ghost use Rattle.value_domain.specs.Cells.{HasWidth, AreCells, HaveWidth, HaveWidths, StandForAll, AreFlags, FlagsStandForAll, OffersAll};
ghost use Rattle.value_domain.specs.Extends.{Extends};

use crate::domain::Domain;

/// What an operation keeps, any number of operations in a row keep.
pub fn steps_compose<D: Domain>()
    ensures none { (d : D) → Extends (D.meaning d) (D.meaning d) }
    ensures two { (old mid new : D) → Extends (D.meaning old) (D.meaning mid)
        → Extends (D.meaning mid) (D.meaning new) → Extends (D.meaning old) (D.meaning new) }
{}

/// Cells and flags stay what they are along a step, and so does what is offered.
pub fn lists_are_kept<D: Domain>()
    ensures cells { (old new : D) (cells : List D.Val) → Extends (D.meaning old) (D.meaning new)
        → AreCells (D.meaning old) cells → AreCells (D.meaning new) cells }
    ensures width { (old new : D) (cells : List D.Val) (w : ℕ)
        → Extends (D.meaning old) (D.meaning new)
        → HaveWidth (D.meaning old) cells w → HaveWidth (D.meaning new) cells w }
    ensures widths { (old new : D) (cells : List D.Val) (widths : List ℕ)
        → Extends (D.meaning old) (D.meaning new)
        → HaveWidths (D.meaning old) cells widths → HaveWidths (D.meaning new) cells widths }
    ensures numbers { (old new : D) (cells : List D.Val) (p : Point) (numbers : List ℕ)
        → Extends (D.meaning old) (D.meaning new) → AreCells (D.meaning old) cells
        → StandForAll (D.meaning new) cells p numbers
        ↔ StandForAll (D.meaning old) cells p numbers }
    ensures flags { (old new : D) (flags : List D.Flag) → Extends (D.meaning old) (D.meaning new)
        → AreFlags (D.meaning old) flags → AreFlags (D.meaning new) flags }
    ensures truths { (old new : D) (flags : List D.Flag) (p : Point) (truths : List Bool)
        → Extends (D.meaning old) (D.meaning new) → AreFlags (D.meaning old) flags
        → FlagsStandForAll (D.meaning new) flags p truths
        ↔ FlagsStandForAll (D.meaning old) flags p truths }
    ensures reads { (old new : D) (widths : List ℕ) → Extends (D.meaning old) (D.meaning new)
        → OffersAll (D.meaning new) widths ↔ OffersAll (D.meaning old) widths }
{}

/// Each place of a list is what the list is.
pub fn lists_are_read<D: Domain>()
    ensures cell { (d : D) (cells : List D.Val) (i : ℕ) (v : D.Val) → AreCells (D.meaning d) cells
        → i < length cells → (D.meaning d).has (slice_index_or cells i v) }
    ensures width { (d : D) (cells : List D.Val) (w i : ℕ) (v : D.Val)
        → HaveWidth (D.meaning d) cells w
        → i < length cells → HasWidth (D.meaning d) (slice_index_or cells i v) w }
    ensures widths { (d : D) (cells : List D.Val) (widths : List ℕ) (i : ℕ) (v : D.Val) (w : ℕ)
        → HaveWidths (D.meaning d) cells widths → i < length cells
        → HasWidth (D.meaning d) (slice_index_or cells i v) (slice_index_or widths i w) }
    ensures number { (d : D) (cells : List D.Val) (p : Point) (numbers : List ℕ) (i : ℕ)
        (v : D.Val) (x : ℕ)
        → StandForAll (D.meaning d) cells p numbers → i < length cells
        → (D.meaning d).stands (slice_index_or cells i v) p (slice_index_or numbers i x) }
    ensures flag { (d : D) (flags : List D.Flag) (i : ℕ) (f : D.Flag) → AreFlags (D.meaning d) flags
        → i < length flags → (D.meaning d).has_flag (slice_index_or flags i f) }
    ensures truth { (d : D) (flags : List D.Flag) (p : Point) (truths : List Bool) (i : ℕ)
        (f : D.Flag) (t : Bool) → FlagsStandForAll (D.meaning d) flags p truths → i < length flags
        → (D.meaning d).flag_stands (slice_index_or flags i f) p (slice_index_or truths i t) }
{}

/// A write to one place writes the number of that place, and nothing else.
pub fn lists_are_written<D: Domain>()
    ensures cells { (d : D) (cells : List D.Val) (i : ℕ) (v : D.Val) → AreCells (D.meaning d) cells
        → (D.meaning d).has v → AreCells (D.meaning d) (slice_set cells i v) }
    ensures width { (d : D) (cells : List D.Val) (w i : ℕ) (v : D.Val)
        → HaveWidth (D.meaning d) cells w
        → HasWidth (D.meaning d) v w → HaveWidth (D.meaning d) (slice_set cells i v) w }
    ensures widths { (d : D) (cells : List D.Val) (widths : List ℕ) (i : ℕ) (v : D.Val) (w : ℕ)
        → HaveWidths (D.meaning d) cells widths
        → HasWidth (D.meaning d) v (slice_index_or widths i w)
        → HaveWidths (D.meaning d) (slice_set cells i v) widths }
    ensures numbers { (d : D) (cells : List D.Val) (p : Point) (numbers : List ℕ) (i : ℕ)
        (v : D.Val) (x : ℕ)
        → StandForAll (D.meaning d) cells p numbers → (D.meaning d).stands v p x
        → StandForAll (D.meaning d) (slice_set cells i v) p (slice_set numbers i x) }
    ensures flags { (d : D) (flags : List D.Flag) (i : ℕ) (f : D.Flag)
        → AreFlags (D.meaning d) flags
        → (D.meaning d).has_flag f → AreFlags (D.meaning d) (slice_set flags i f) }
    ensures truths { (d : D) (flags : List D.Flag) (p : Point) (truths : List Bool) (i : ℕ)
        (f : D.Flag) (t : Bool) → FlagsStandForAll (D.meaning d) flags p truths
        → (D.meaning d).flag_stands f p t
        → FlagsStandForAll (D.meaning d) (slice_set flags i f) p (slice_set truths i t) }
{}

/// Two lists together are what each of them is, in order.
pub fn lists_are_joined<D: Domain>()
    ensures cells { (d : D) (cells more : List D.Val) → AreCells (D.meaning d) cells
        → AreCells (D.meaning d) more → AreCells (D.meaning d) (cells ++ more) }
    ensures width { (d : D) (cells more : List D.Val) (w : ℕ) → HaveWidth (D.meaning d) cells w
        → HaveWidth (D.meaning d) more w → HaveWidth (D.meaning d) (cells ++ more) w }
    ensures widths { (d : D) (cells more : List D.Val) (widths also : List ℕ)
        → HaveWidths (D.meaning d) cells widths → HaveWidths (D.meaning d) more also
        → HaveWidths (D.meaning d) (cells ++ more) (widths ++ also) }
    ensures numbers { (d : D) (cells more : List D.Val) (p : Point) (numbers also : List ℕ)
        → StandForAll (D.meaning d) cells p numbers → StandForAll (D.meaning d) more p also
        → StandForAll (D.meaning d) (cells ++ more) p (numbers ++ also) }
    ensures flags { (d : D) (flags more : List D.Flag) → AreFlags (D.meaning d) flags
        → AreFlags (D.meaning d) more → AreFlags (D.meaning d) (flags ++ more) }
    ensures truths { (d : D) (flags more : List D.Flag) (p : Point) (truths also : List Bool)
        → FlagsStandForAll (D.meaning d) flags p truths → FlagsStandForAll (D.meaning d) more p also
        → FlagsStandForAll (D.meaning d) (flags ++ more) p (truths ++ also) }
{}

/// The first places of a list, and those after them, are what the list is.
pub fn lists_are_parted<D: Domain>()
    ensures widths { (d : D) (cells : List D.Val) (widths : List ℕ) (n : ℕ)
        → HaveWidths (D.meaning d) cells widths
        → HaveWidths (D.meaning d) (take n cells) (take n widths)
        × HaveWidths (D.meaning d) (drop n cells) (drop n widths) }
    ensures numbers { (d : D) (cells : List D.Val) (p : Point) (numbers : List ℕ) (n : ℕ)
        → StandForAll (D.meaning d) cells p numbers
        → StandForAll (D.meaning d) (take n cells) p (take n numbers)
        × StandForAll (D.meaning d) (drop n cells) p (drop n numbers) }
    ensures reads { (d : D) (widths more : List ℕ)
        → OffersAll (D.meaning d) (widths ++ more) → OffersAll (D.meaning d) widths }
{}

/// Lists that go together are equally long, and cells that have widths are cells.
pub fn lists_go_together<D: Domain>()
    ensures widths { (d : D) (cells : List D.Val) (widths : List ℕ)
        → HaveWidths (D.meaning d) cells widths
        → length cells ≡ length widths }
    ensures numbers { (d : D) (cells : List D.Val) (p : Point) (numbers : List ℕ)
        → StandForAll (D.meaning d) cells p numbers → length cells ≡ length numbers }
    ensures truths { (d : D) (flags : List D.Flag) (p : Point) (truths : List Bool)
        → FlagsStandForAll (D.meaning d) flags p truths → length flags ≡ length truths }
    ensures one_width { (d : D) (cells : List D.Val) (w : ℕ) → HaveWidth (D.meaning d) cells w
        → AreCells (D.meaning d) cells }
    ensures each_width { (d : D) (cells : List D.Val) (widths : List ℕ)
        → HaveWidths (D.meaning d) cells widths → AreCells (D.meaning d) cells }
{}
