//! What the types of a text promise of its names, each as the contract of a call that does nothing.

ghost use Rattle.typed_uses.specs.UseLaws.{AcceptedTextsDefineTheirUses, EachUseIsDefined, NamesOfTextsAreApart};

/// The direct uses of each function of a text that types are among the names that the text defines. Left out are trees in
/// which a global or the like has the name of a struct, as `struct T`; no text is read as one.
pub fn each_use_is_defined()
    ensures typed { EachUseIsDefined }
    ensures apart { NamesOfTextsAreApart }
    ensures accepted { AcceptedTextsDefineTheirUses }
{}
