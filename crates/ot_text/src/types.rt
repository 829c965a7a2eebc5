//! The texts of types.
ghost use Rattle.std.specs.Prelude.{◌≡◌, List, ◌∷◌, [], ◌++◌, map, length, codes, true};
ghost use Rattle.std.specs.List.{All};
ghost use Rattle.ot_logic.specs.Names.{Name as NameValue, same_name};
ghost use Rattle.ot_logic.specs.Naming.{names};
ghost use Rattle.ot_logic.specs.Trees.{Ty, TyOp};
ghost use Rattle.ot_logic.specs.PlainTrees.{tys_of};
ghost use Rattle.ot_text.specs.Texts.{name_text, ty_text, spaced_text, is_function};
ghost use Rattle.ot_text.specs.Types.{IsFormOf};
ghost use Rattle.ot_text.specs.Pages.{IsPut, printed};

use crate::page::Page;
use ot_logic::Name;

/// The node of a type: a variable, or an operator with what stands for its arguments.
pub enum TypeForm<'a, T> {
    Variable(&'a Name),
    Operator(&'a Name, &'a [T]),
}

/// What has types: a table by their numbers, or nothing where they are trees.
pub trait Types {
    /// What stands for a type.
    type Type;

    /// Whether it is of the table.
    ghost has_type: { Self → Self.Type → Type 0 };

    /// The type that it stands for.
    ghost type_at: { Self → Self.Type → Ty NameValue };

    /// The node of a type.
    fn type_form<'a>(&'a self, ty: &'a Self::Type) -> TypeForm<'a, Self::Type>
        requires { has_type self.now ty.now }
        ensures { IsFormOf (has_type self.now) (type_at self.now) (type_at self.now ty.now) result };
}

/// Puts a type on a page. Nothing is read once the page takes no more, so a type costs no more than the limit.
#[cycle(types)]
pub fn put_type<T: Types>(page: &mut Page, table: &T, ty: &T::Type)
    requires { T.has_type table.now ty.now }
    ensures { IsPut (ty_text (T.type_at table.now ty.now)) (printed page.old) (printed page.new) }
{
    if page.is_stopped() {
        return;
    }
    match table.type_form(ty) {
        TypeForm::Variable(name) => {
            page.put(b"'");
            put_name(page, name);
        }
        TypeForm::Operator(name, args) => put_operator(page, table, name, args),
    }
}

/// An operator with its arguments.
#[cycle(types)]
fn put_operator<T: Types>(page: &mut Page, table: &T, name: &Name, args: &[T::Type])
    requires { All (T.has_type table.now) args.now }
    ensures { IsPut (ty_text (TyOp name.now (tys_of (map (T.type_at table.now) args.now)))) (printed page.old)
        (printed page.new) }
{
    if args.is_empty() {
        put_name(page, name);
        return;
    }
    if is_arrow(name, args.len()) {
        page.put(b"(");
        put_type(page, table, &args[0]);
        page.put(b" -> ");
        put_type(page, table, &args[1]);
        page.put(b")");
        return;
    }
    page.put(b"(");
    put_name(page, name);
    put_types(page, table, args);
    page.put(b")");
}

/// Types, a space before each.
#[cycle(types)]
fn put_types<T: Types>(page: &mut Page, table: &T, types: &[T::Type])
    requires { All (T.has_type table.now) types.now }
    ensures { IsPut (spaced_text (tys_of (map (T.type_at table.now) types.now))) (printed page.old) (printed page.new) }
{
    for ty in types {
        page.put(b" ");
        put_type(page, table, ty);
    }
}

/// Puts a name and a type on a page.
pub fn put_typed<T: Types>(page: &mut Page, table: &T, name: &Name, ty: &T::Type)
    requires { T.has_type table.now ty.now }
    ensures { IsPut (name_text name.now ++ codes ":" ++ ty_text (T.type_at table.now ty.now)) (printed page.old)
        (printed page.new) }
{
    put_name(page, name);
    page.put(b":");
    put_type(page, table, ty);
}

/// Puts a name on a page.
pub fn put_name(page: &mut Page, name: &Name)
    ensures { IsPut (name_text name.now) (printed page.old) (printed page.new) }
{
    // A name has a component.
    let _components = name.components();
    page.put_name(name);
}

/// Whether a name has this one component.
pub fn is_text(name: &Name, text: &[u8]) -> bool
    ensures { result ≡ same_name name.now (text.now ∷ []) }
{
    match name.components() {
        [only] => only.as_slice() == text,
        _ => false,
    }
}

/// Whether an operator with so many arguments is `->` with two.
pub fn is_arrow(name: &Name, count: usize) -> bool
    ensures function { (ts : List (Ty NameValue)) → length ts ≡ count
        → result ≡ is_function names (TyOp name.now (tys_of ts)) }
    ensures two { result ≡ true → count ≡ 2 }
{
    count == 2 && is_text(name, b"->")
}
