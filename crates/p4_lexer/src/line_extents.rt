//! The pieces of a line, by their extents.
ghost use Rattle.std.specs.Prelude.{◌≡◌, ℕ, ◌+◌, ◌<◌, ◌≤◌, ◌^◌, length, IfOk};
ghost use Rattle.p4_lexer.specs.LineExtents.{placed_from, end_from, IsLineAt};

use crate::extents::{Extent, PieceAt};
use crate::lines::line_pieces;
use crate::piece::Piece;
use sqlite_items::Items;
use std::alloc::{AllocError, Global};

/// Pieces of a line, and where it ends.
#[derive(Drop)]
pub(crate) struct LineAt {
    pub(crate) pieces: Items<PieceAt>,
    pub(crate) end: usize,
}

/// The pieces from a place on.
fn placed_from(alloc: Global, start: usize, pieces: &[Piece]) -> Result<LineAt, AllocError>
    requires { end_from start pieces.now < 2 ^ 64 }
    ensures pieces { IfOk result (λ line. line.pieces ≡ placed_from start pieces.now) }
    ensures end { IfOk result (λ line. line.end ≡ end_from start pieces.now) }
{
    let mut placed = Items::new(alloc);
    let mut at = start;
    for piece in pieces {
        let extent = Extent { at, len: piece.len };
        placed.push(PieceAt {
            kind: piece.kind,
            extent,
        })?;
        at += piece.len;
    }
    Ok(LineAt {
        pieces: placed,
        end: at,
    })
}

/// The pieces of the line from a place on, up to the first that holds a line feed.
pub(crate) fn line_at(alloc: Global, text: &[u8], start: usize) -> Result<LineAt, AllocError>
    requires few { length text.now < 2 ^ 32 }
    requires within { start ≤ length text.now }
    ensures { IfOk result (λ line. IsLineAt text.now start line.pieces line.end) }
{
    let pieces = line_pieces(alloc, &text[start..])?;
    let line = placed_from(alloc, start, pieces.as_slice())?;
    Ok(line)
}
