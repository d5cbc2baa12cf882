//! Types as kinds of words.
ghost use Rattle.std.specs.Prelude.{◌≡◌};
ghost use Rattle.c_tree.specs.Bare.{bare_type};
ghost use Rattle.resolved_tree.specs.Nodes.{Table, type_of};
ghost use Rattle.tree_code.specs.Code.{kind_of_type};
ghost use Rattle.expr_gen.specs.Kinds.{integer_kind as integer_kind_of};

use bytecode::ValueKind;
use c_ints::Kind;
use c_tree::CType;
use resolved_tree::ValueType;

/// The kind of an `int`.
pub(crate) const INT: ValueKind = ValueKind::Number(Kind::I32);

/// What a word of a type is.
pub fn kind_of(declared: ValueType) -> ValueKind
    ensures { (t : Table) → result ≡ kind_of_type (type_of t declared) }
{
    match declared {
        ValueType::Integer(kind) => ValueKind::Number(kind),
        ValueType::Handle(_) => ValueKind::Handle,
        ValueType::Thread => ValueKind::Thread,
    }
}

/// What a word of a type of the text is.
pub(crate) fn kind_of_declared(declared: &CType) -> ValueKind
    ensures { result ≡ kind_of_type (bare_type declared.now) }
{
    match declared {
        CType::Integer(kind) => ValueKind::Number(*kind),
        CType::Handle(_) => ValueKind::Handle,
        CType::Thread => ValueKind::Thread,
    }
}

/// The kind of an integer; that of `int` where it is none.
pub(crate) fn integer_kind(kind: ValueKind) -> Kind
    ensures { result ≡ integer_kind_of kind }
{
    match kind {
        ValueKind::Number(kind) => kind,
        ValueKind::Handle | ValueKind::Thread => Kind::I32,
    }
}
