ghost use Rattle.std.specs.Prelude.{IsTrue, ◌≡◌, ◌↔◌};
ghost use Rattle.c_tree.specs.Bare.{bare_type};

use crate::name::CType;

/// Whether two types are the same.
pub fn same_type(a: &CType, b: &CType) -> bool
    ensures { IsTrue result ↔ (bare_type a.now ≡ bare_type b.now) }
{
    match a {
        CType::Integer(kind) => matches!(b, CType::Integer(other) if *other == *kind),
        CType::Handle(name) => matches!(b, CType::Handle(other) if other.text == name.text),
        CType::Thread => matches!(b, CType::Thread),
    }
}
