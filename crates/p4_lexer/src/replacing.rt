//! A word of a source and what comes of it, item by item: macros in the place of their names.
ghost use Rattle.std.specs.Prelude.{◌≡◌, ◌++◌, ◌∷◌, [], ◌+◌, ◌<◌, true, false, Some, List, IfOk, IfSome, OnOk, MatchBool, MatchOption, IsTrue, length, reverse, slice_get, slice_set, if◌then◌else◌, ◌⊎◌};
ghost use Rattle.p4_lexer.specs.declared.replacing.Frame.{Frame as FrameValue};
ghost use Rattle.p4_lexer.specs.Extents.{IsIn, bytes_at, placed_at};
ghost use Rattle.p4_lexer.specs.MacroTable.{AreInForce, AreSame, AreWordsIn, IsWordOf, number_of};
ghost use Rattle.p4_lexer.specs.Replacement.{Gives, names_macro};
ghost use Rattle.p4_lexer.specs.Scope.{Macro};
ghost use Rattle.p4_lexer.specs.Stack.{Adds, AreFrames, AreMarks, FramesGive, Overfills, Reaches, WordGives, names, steps_left, weight_at};

use crate::extents::{Item, PieceAt, WordAt};
use crate::macro_table::MacroTable;
use crate::piece::Kind;
use sqlite_items::Items;
use std::alloc::{AllocError, Global};
use tg_base::Span;

/// A place in the replacement of a name: the number of its macro, and which of the macro's words is next.
#[derive(Clone, Copy)]
pub(crate) struct Frame {
    pub(crate) number: usize,
    pub(crate) next: usize,
}

/// What came of the words so far, and what more may weigh. While a word is replaced, the frames inside which the replacement
/// stands, the innermost last, and marks at the numbers of their macros.
#[derive(Drop)]
pub(crate) struct Replacing {
    pub(crate) marks: Items<bool>,
    pub(crate) frames: Items<Frame>,
    pub(crate) items: Items<Item>,
    pub(crate) left: usize,
}

/// What is left of a room after an item of so many bytes.
fn room_behind(left: usize, len: usize) -> Option<usize>
    ensures { MatchOption result (left < 16 + len) (λ less. less + (16 + len) ≡ left) }
{
    left.checked_sub(16)?.checked_sub(len)
}

impl Replacing {
    /// Nothing yet, where all may weigh so much.
    pub(crate) fn new(alloc: Global, most: usize) -> Replacing
        ensures { result ≡ record { marks = []; frames = []; items = []; left = most } }
    {
        Replacing {
            marks: Items::new(alloc),
            frames: Items::new(alloc),
            items: Items::new(alloc),
            left: most,
        }
    }

    /// One more macro has a mark, which is not set.
    pub(crate) fn add_mark(&mut self) -> Result<(), AllocError>
        ensures { OnOk result (self.new
            ≡ record self.old { marks = self.old.marks ++ false ∷ [] }) }
    {
        self.marks.push(false)
    }

    /// What came.
    pub(crate) fn into_items(self) -> Items<Item>
        ensures { result ≡ self.items }
    {
        let Replacing { items, .. } = self;
        items
    }

    /// What comes of a word of the source. False where an item of it does not fit.
    pub(crate) fn replace(&mut self, table: &MacroTable, word: WordAt) -> Result<bool, AllocError>
        requires words { AreWordsIn table.now }
        requires within { IsIn table.now.text.now word.piece.extent }
        requires frames { self.old.frames ≡ [] }
        ensures gives { IfOk result (λ fits. (macros : List Macro) → AreInForce table.now macros
            → AreMarks table.now self.old.marks []
            → MatchBool fits
            (Reaches table.now macros word.place
            (Gives macros [] (placed_at table.now.text.now word ∷ [])) self.old self.new)
            (Overfills table.now word.place
            (Gives macros [] (placed_at table.now.text.now word ∷ [])) self.old self.new)) }
        ensures adds { OnOk result (Adds (λ p. (p ≡ word.piece) ⊎ IsWordOf table.now p)
            self.old.items self.new.items) }
        ensures frames { IfOk result (λ fits. IsTrue fits → self.new.frames ≡ []) }
        ensures length { OnOk result (length self.new.marks ≡ length self.old.marks) }
    {
        if !self.give(table, word)? {
            return Ok(false);
        }
        while let Some(frame) = self.frames.pop() {
            if !self.step(table, frame, word.place)? {
                return Ok(false);
            }
        }
        Ok(true)
    }

    /// Adds the item where it fits.
    fn push(&mut self, item: Item) -> Result<bool, AllocError>
        ensures marks { self.new.marks ≡ self.old.marks }
        ensures frames { self.new.frames ≡ self.old.frames }
        ensures items { IfOk result (λ fits. self.new.items
            ≡ (if fits then self.old.items ++ item ∷ [] else self.old.items)) }
        ensures left { IfOk result (λ fits. MatchBool fits
            (self.new.left + weight_at item ≡ self.old.left)
            ((self.new.left ≡ self.old.left) × (self.old.left < weight_at item))) }
    {
        let len = match item {
            Item::Word(word) | Item::Replaced(word) => word.piece.extent.len,
        };
        let Some(left) = room_behind(self.left, len) else {
            return Ok(false);
        };
        self.items.push(item)?;
        self.left = left;
        Ok(true)
    }

    /// The number of the macro that the word names, unless the word stands inside its replacement.
    fn named(&self, table: &MacroTable, word: WordAt) -> Option<usize>
        requires { IsIn table.now.text.now word.piece.extent }
        ensures number { IfSome result (λ n.
            number_of table.now (bytes_at table.now.text.now word.piece.extent) ≡ Some n) }
        ensures within { IfSome result (λ n. n < length self.now.marks) }
        ensures unmarked { IfSome result (λ n. slice_get self.now.marks n ≡ Some false) }
        ensures names { (macros : List Macro) (frames : List FrameValue)
            → AreInForce table.now macros → AreMarks table.now self.now.marks frames
            → AreSame table.now result (names_macro macros (names table.now frames)
            (placed_at table.now.text.now word)) }
    {
        let Kind::Name = word.piece.kind else {
            return None;
        };
        let number = table.number_of(word.piece.extent)?;
        match self.marks.get(number) {
            Some(false) => Some(number),
            _ => None,
        }
    }

    /// The item that the word begins with. A name that is replaced opens a frame. False where the item does not fit.
    fn give(&mut self, table: &MacroTable, word: WordAt) -> Result<bool, AllocError>
        requires { IsIn table.now.text.now word.piece.extent }
        ensures gives { IfOk result (λ fits. (macros : List Macro) → AreInForce table.now macros
            → AreFrames table.now (reverse self.old.frames)
            → AreMarks table.now self.old.marks (reverse self.old.frames)
            → MatchBool fits
            (Reaches table.now macros word.place
            (WordGives table.now macros (reverse self.old.frames) word) self.old self.new)
            (Overfills table.now word.place
            (WordGives table.now macros (reverse self.old.frames) word) self.old self.new)) }
        ensures adds { OnOk result (Adds (λ p. p ≡ word.piece) self.old.items self.new.items) }
        ensures length { OnOk result (length self.new.marks ≡ length self.old.marks) }
        ensures nearer { IfOk result (λ fits. IsTrue fits
            → steps_left self.new < steps_left self.old) }
    {
        match self.named(table, word) {
            None => self.push(Item::Word(word)),
            Some(number) => {
                if !self.push(Item::Replaced(word))? {
                    return Ok(false);
                }
                self.open(number)?;
                Ok(true)
            }
        }
    }

    /// A frame for the words of this macro.
    fn open(&mut self, number: usize) -> Result<(), AllocError>
        requires { number < length self.old.marks }
        ensures marks { self.new.marks ≡ slice_set self.old.marks number true }
        ensures frames { OnOk result (self.new.frames
            ≡ self.old.frames ++ record { number = number; next = 0 } ∷ []) }
        ensures items { self.new.items ≡ self.old.items }
        ensures left { self.new.left ≡ self.old.left }
    {
        self.marks.set(number, true);
        self.frames.push(Frame { number, next: 0 })
    }

    /// One step behind this frame, which was the innermost: its next word, or its end. False where an item does not fit.
    fn step(&mut self, table: &MacroTable, frame: Frame, place: Span) -> Result<bool, AllocError>
        requires { AreWordsIn table.now }
        ensures gives { IfOk result (λ fits. (macros : List Macro) → AreInForce table.now macros
            → AreFrames table.now (frame ∷ reverse self.old.frames)
            → AreMarks table.now self.old.marks (frame ∷ reverse self.old.frames)
            → MatchBool fits
            (Reaches table.now macros place
            (FramesGive table.now macros place (frame ∷ reverse self.old.frames))
            self.old self.new)
            (Overfills table.now place
            (FramesGive table.now macros place (frame ∷ reverse self.old.frames))
            self.old self.new)) }
        ensures adds { OnOk result (Adds (IsWordOf table.now) self.old.items self.new.items) }
        ensures length { OnOk result (length self.new.marks ≡ length self.old.marks) }
        ensures nearer { IfOk result (λ fits. IsTrue fits
            → steps_left self.new < steps_left self.old + 1) }
    {
        match table.word(frame.number, frame.next) {
            None => {
                self.close(frame.number);
                Ok(true)
            }
            Some(piece) => {
                self.frames.push(Frame {
                    number: frame.number,
                    next: frame.next + 1,
                })?;
                self.give(
                    table,
                    WordAt {
                        piece,
                        place,
                        replacement: true,
                    },
                )
            }
        }
    }

    /// Takes the mark of this macro away.
    fn close(&mut self, number: usize)
        ensures marks { self.new.marks ≡ slice_set self.old.marks number false }
        ensures frames { self.new.frames ≡ self.old.frames }
        ensures items { self.new.items ≡ self.old.items }
        ensures left { self.new.left ≡ self.old.left }
    {
        if number < self.marks.len() {
            self.marks.set(number, false);
        }
    }
}
