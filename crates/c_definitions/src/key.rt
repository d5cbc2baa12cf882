ghost use Rattle.std.specs.Prelude.{◌≡◌, option_copied};
ghost use Rattle.c_definitions.specs.Index.{key_of};

use crate::lookup::name_of;
use c_tree::DefKind;
use dsu_io::Text;

/// What definitions are found by.
#[derive(Clone, Copy)]
pub enum Key {
    /// The name that it declares.
    Name,
    /// The tag of the struct that it defines.
    Struct,
    /// The tag that it declares, with members or without.
    Tag,
    /// The tag of the struct that it transforms.
    StructTransformer,
    /// The name of the global that it transforms.
    GlobalTransformer,
}

/// What a definition is found by, if anything.
pub fn key_of(by: Key, kind: &DefKind) -> Option<&Text>
    ensures { option_copied result ≡ key_of by kind.now }
{
    match by {
        Key::Name => Some(&name_of(kind)?.text),
        Key::Struct => match kind {
            DefKind::Struct(tag, _) => Some(&tag.text),
            _ => None,
        },
        Key::Tag => match kind {
            DefKind::Struct(tag, _) => Some(&tag.text),
            DefKind::Forward(tag) => Some(&tag.text),
            _ => None,
        },
        Key::StructTransformer => match kind {
            DefKind::TransformStruct(transform) => Some(&transform.name.text),
            _ => None,
        },
        Key::GlobalTransformer => match kind {
            DefKind::TransformGlobal(global, _) => Some(&global.text),
            _ => None,
        },
    }
}
