//! A text in pieces, of which a type or a term is opened only where its text is asked for.
ghost use Rattle.std.specs.Prelude.{ℕ, ◌<◌, List, [], ◌∷◌, ◌++◌, length, codes, OnOk};
ghost use Rattle.std.specs.List.{All};
ghost use Rattle.ot_log_nodes.specs.Items.{Item, HasName, HasType, HasTerm, name_at, type_at, types_at, term_at};
ghost use Rattle.ot_text.specs.Texts.{name_text, number_text, ty_text, tm_text, spaced_text};
ghost use Rattle.ot_log_order.specs.Pieces.{piece_text, HasPiece, Puts, Opens};

use itoa::Buffer;
use ot_log_nodes::{NameId, Nodes, TermId, TermNode, TypeId, TypeNode};
use ot_log_rules::as_equation;
use ot_logic::Memory;

/// A part of a text: a byte, or the text of a type or a term.
#[derive(Clone, Copy)]
pub(crate) enum Piece {
    Byte(u8),
    Type(TypeId),
    Term(TermId),
}

/// Puts the pieces of a piece before what is left. The piece that comes next is the last of the list.
pub(crate) fn open(nodes: &Nodes, piece: &Piece, pieces: &mut Vec<Piece>) -> Result<(), Memory>
    requires { HasPiece nodes.now piece.now }
    ensures { OnOk result (Opens nodes.now (piece_text nodes.now piece.now) pieces.old.items pieces.new.items) }
{
    match piece {
        Piece::Byte(byte) => push_bytes(&[*byte], pieces),
        Piece::Type(id) => open_type(nodes, *id, pieces),
        Piece::Term(id) => open_term(nodes, *id, pieces),
    }
}

/// The pieces of a type.
fn open_type(nodes: &Nodes, id: TypeId, pieces: &mut Vec<Piece>) -> Result<(), Memory>
    requires { HasType nodes.now id }
    ensures { OnOk result (Opens nodes.now (ty_text (type_at nodes.now id)) pieces.old.items pieces.new.items) }
{
    if let Some((from, to)) = nodes.as_fun(id) {
        return push_two(b"(", Piece::Type(from), b" -> ", Piece::Type(to), pieces);
    }
    match nodes.type_node(id) {
        TypeNode::Var(name) => {
            push_name(nodes, *name, pieces)?;
            push_bytes(b"'", pieces)
        }
        TypeNode::Op(name, args) if args.is_empty() => push_name(nodes, *name, pieces),
        TypeNode::Op(name, args) => {
            push_bytes(b")", pieces)?;
            push_spaced(args.as_slice(), pieces)?;
            push_name(nodes, *name, pieces)?;
            push_bytes(b"(", pieces)
        }
    }
}

/// The pieces of a term.
fn open_term(nodes: &Nodes, id: TermId, pieces: &mut Vec<Piece>) -> Result<(), Memory>
    requires { HasTerm nodes.now id }
    ensures { OnOk result (Opens nodes.now (tm_text (term_at nodes.now id)) pieces.old.items pieces.new.items) }
{
    if let Some(sides) = as_equation(nodes, id) {
        return push_two(
            b"(",
            Piece::Term(sides.left),
            b" = ",
            Piece::Term(sides.right),
            pieces,
        );
    }
    match nodes.term_node(id) {
        TermNode::Free(v) => push_typed(nodes, v.name, v.ty, pieces),
        TermNode::Const(name, ty) => {
            push_typed(nodes, name, ty, pieces)?;
            push_bytes(b"@", pieces)
        }
        TermNode::Bound(place) => {
            push_number(place, pieces)?;
            push_bytes(b"#", pieces)
        }
        TermNode::App(f, x) => push_two(b"(", Piece::Term(f), b" ", Piece::Term(x), pieces),
        TermNode::Abs(ty, body) => push_two(
            b"(\\",
            Piece::Type(ty),
            b". ",
            Piece::Term(body),
            pieces,
        ),
    }
}

/// Two parts in parentheses.
fn push_two(
    before: &[u8],
    first: Piece,
    between: &[u8],
    second: Piece,
    pieces: &mut Vec<Piece>,
) -> Result<(), Memory>
    ensures { (ts : List Item) → HasPiece ts first → HasPiece ts second → 0 < length before.now →
        let text = before.now ++ piece_text ts first ++ between.now ++ piece_text ts second ++ codes ")" in
        OnOk result (Opens ts text pieces.old.items pieces.new.items) }
{
    push_bytes(b")", pieces)?;
    push(second, pieces)?;
    push_bytes(between, pieces)?;
    push(first, pieces)?;
    push_bytes(before, pieces)
}

/// Types, a space before each.
fn push_spaced(types: &[TypeId], pieces: &mut Vec<Piece>) -> Result<(), Memory>
    ensures { (ts : List Item) → All (HasType ts) types.now →
        OnOk result (Puts ts (spaced_text (types_at ts types.now)) pieces.old.items pieces.new.items) }
{
    for i in (0..types.len()).rev() {
        push(Piece::Type(types[i]), pieces)?;
        push_bytes(b" ", pieces)?;
    }
    Ok(())
}

/// A name with its type.
fn push_typed(
    nodes: &Nodes,
    name: NameId,
    ty: TypeId,
    pieces: &mut Vec<Piece>,
) -> Result<(), Memory>
    requires name { HasName nodes.now name }
    requires ty { HasType nodes.now ty }
    ensures { let text = name_text (name_at nodes.now name) ++ codes ":" ++ ty_text (type_at nodes.now ty) in
        OnOk result (Opens nodes.now text pieces.old.items pieces.new.items) }
{
    push(Piece::Type(ty), pieces)?;
    push_bytes(b":", pieces)?;
    push_name(nodes, name, pieces)
}

/// The spelling of a name.
fn push_name(nodes: &Nodes, name: NameId, pieces: &mut Vec<Piece>) -> Result<(), Memory>
    requires { HasName nodes.now name }
    ensures { OnOk result (Opens nodes.now (name_text (name_at nodes.now name)) pieces.old.items pieces.new.items) }
{
    let name = nodes.name_of(name);
    // A name has a component.
    let _components = name.components();
    let mut text = Vec::new(nodes.allocator());
    name.spell(&mut text)?;
    push_bytes(text.as_slice(), pieces)
}

/// A number in decimal digits.
fn push_number(number: u64, pieces: &mut Vec<Piece>) -> Result<(), Memory>
    ensures { (ts : List Item) → OnOk result (Puts ts (number_text number) pieces.old.items pieces.new.items) }
{
    let mut buffer = Buffer::new();
    push_bytes(buffer.format(number).as_bytes(), pieces)
}

/// Bytes, of which the first comes next.
fn push_bytes(bytes: &[u8], pieces: &mut Vec<Piece>) -> Result<(), Memory>
    ensures puts { (ts : List Item) → OnOk result (Puts ts bytes.now pieces.old.items pieces.new.items) }
    ensures opens { (ts : List Item) → 0 < length bytes.now →
        OnOk result (Opens ts bytes.now pieces.old.items pieces.new.items) }
{
    for i in (0..bytes.len()).rev() {
        pieces.push(Piece::Byte(bytes[i]))?;
    }
    Ok(())
}

/// Puts a piece before what is left.
pub(crate) fn push(piece: Piece, pieces: &mut Vec<Piece>) -> Result<(), Memory>
    ensures { (ts : List Item) → HasPiece ts piece →
        OnOk result (Puts ts (piece_text ts piece) pieces.old.items pieces.new.items) }
{
    pieces.push(piece)?;
    Ok(())
}
