ghost use Rattle.std.specs.Prelude.{◌≡◌, ◌&&◌, map, option_copied};
ghost use Rattle.c_semantics.specs.Changes.{same_layout};
ghost use Rattle.c_semantics.specs.Same.{same_binding, same_bool, same_kind as same_bare_kind, same_type as same_bare_type};
ghost use Rattle.c_tree.specs.Bare.{bare_binding, bare_type};
ghost use Rattle.c_definitions.specs.Lookup.{member};
ghost use Rattle.c_expr_types.specs.Found.{same_kind, same_type};

use c_ints::Kind;
use c_tree::{Binding, CType};

/// Whether two integer types are one.
fn same_kind(a: Kind, b: Kind) -> bool
    ensures kinds { result ≡ same_kind a b }
    ensures bare { result ≡ same_bare_kind a b }
{
    a.width() == b.width() && a.is_signed() == b.is_signed()
}

/// Whether two types are one.
pub(crate) fn same_type(a: &CType, b: &CType) -> bool
    ensures types { result ≡ same_type a.now b.now }
    ensures bare { result ≡ same_bare_type (bare_type a.now) (bare_type b.now) }
{
    match (a, b) {
        (CType::Integer(a), CType::Integer(b)) => same_kind(*a, *b),
        (CType::Handle(a), CType::Handle(b)) => a.text == b.text,
        (CType::Thread, CType::Thread) => true,
        _ => false,
    }
}

/// The type of the first field of a name.
pub(crate) fn member<'a>(fields: &'a [Binding], name: &str) -> Option<&'a CType>
    ensures { option_copied result ≡ member fields.now name.now }
{
    let field = fields
        .iter()
        .find(|field| name == field.name.text.as_str())?;
    Some(&field.declared)
}

/// Whether two fields have one name and one type, and others are the same too.
fn same_field(a: &Binding, b: &Binding, others: bool) -> bool
    ensures { result ≡ (same_binding (bare_binding a.now) (bare_binding b.now) && others) }
{
    same_type(&a.declared, &b.declared) && a.name.text == b.name.text && others
}

/// Whether two structs have the same fields in the same order.
pub(crate) fn same_layout(a: &[Binding], b: &[Binding]) -> bool
    ensures { result ≡ same_layout (map bare_binding a.now) (map bare_binding b.now) }
{
    if a.len() != b.len() {
        return false;
    }
    let mut i = a.len();
    let mut are_same = true;
    while i > 0 {
        i -= 1;
        are_same = same_field(&a[i], &b[i], are_same);
    }
    are_same
}
