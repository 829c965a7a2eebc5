//! The order of two texts.
ghost use Rattle.std.specs.Prelude.{◌≡◌, ℕ, [], ◌∷◌, ◌++◌, IfOk};
ghost use Rattle.ot_log_nodes.specs.Items.{HasTerm, term_at};
ghost use Rattle.ot_text.specs.Texts.{tm_text, order};
ghost use Rattle.ot_log_order.specs.Pieces.{HasPiece, Finds, same_piece};

use crate::pieces::{Piece, open, push};
use ot_log_nodes::{Nodes, TermId};
use ot_logic::Memory;
use std::cmp::Ordering;

/// The order of the texts of two terms. What is one and the same in both is passed over, and nothing is opened behind
/// the first difference, since a text can be much longer than the terms of a log.
pub(crate) fn compare(nodes: &Nodes, a: TermId, b: TermId) -> Result<Ordering, Memory>
    requires a { HasTerm nodes.now a }
    requires b { HasTerm nodes.now b }
    ensures { IfOk result (λ o. o ≡ order (tm_text (term_at nodes.now a)) (tm_text (term_at nodes.now b))) }
{
    let mut left = Vec::new(nodes.allocator());
    push(Piece::Term(a), &mut left)?;
    let mut right = Vec::new(nodes.allocator());
    push(Piece::Term(b), &mut right)?;
    'pieces: loop {
        let Some(x) = left.pop() else {
            return Ok(if right.is_empty() {
                Ordering::Equal
            } else {
                Ordering::Less
            });
        };
        let Some(y) = right.pop() else {
            return Ok(Ordering::Greater);
        };
        match step(nodes, &x, &y, &mut left, &mut right)? {
            Ordering::Equal => {}
            order => return Ok(order),
        }
    }
}

/// Takes the next pieces off both texts: two bytes are compared, two pieces that are one are passed over, and else one
/// of them is opened.
fn step(
    nodes: &Nodes,
    x: &Piece,
    y: &Piece,
    left: &mut Vec<Piece>,
    right: &mut Vec<Piece>,
) -> Result<Ordering, Memory>
    requires x { HasPiece nodes.now x.now }
    requires y { HasPiece nodes.now y.now }
    ensures { let l = left.old.items ++ x.now ∷ [] in let r = right.old.items ++ y.now ∷ [] in
        IfOk result (λ o. Finds nodes.now o l r left.new.items right.new.items) }
{
    if is_same(x, y) {
        return Ok(Ordering::Equal);
    }
    match x {
        Piece::Byte(a) => match y {
            Piece::Byte(b) => Ok(a.cmp(b)),
            _ => {
                left.push(*x)?;
                open(nodes, y, right)?;
                Ok(Ordering::Equal)
            }
        },
        _ => {
            right.push(*y)?;
            open(nodes, x, left)?;
            Ok(Ordering::Equal)
        }
    }
}

/// Whether two pieces are one.
fn is_same(x: &Piece, y: &Piece) -> bool
    ensures { result ≡ same_piece x.now y.now }
{
    match x {
        Piece::Byte(a) => match y {
            Piece::Byte(b) => a == b,
            _ => false,
        },
        Piece::Type(a) => match y {
            Piece::Type(b) => a == b,
            _ => false,
        },
        Piece::Term(a) => match y {
            Piece::Term(b) => a == b,
            _ => false,
        },
    }
}
