//! The places of fields in a layout.
ghost use Rattle.std.specs.Prelude.{◌≡◌, ◌<◌, map, length, IfSome};
ghost use Rattle.c_tree.specs.Bare.{bare_binding};
ghost use Rattle.type_transformers.specs.Places.{place_in};

use c_tree::Binding;

/// The first place of a name among some fields.
pub(crate) fn place_in(fields: &[Binding], name: &str) -> Option<usize>
    ensures place { result ≡ place_in (map bare_binding fields.now) name.now }
    ensures within { IfSome result (λ place. place < length fields.now) }
{
    for (place, field) in fields.iter().enumerate() {
        if name == field.name.text.as_str() {
            return Some(place);
        }
    }
    None
}
