//! Laws of equal definitions, each as the contract of a call that does nothing.

ghost use Rattle.definition_laws.specs.DefinitionLaws.{AddedExactly, ChangedExactly, DefinitionsAreEqual, InterfaceExactly, InterfacesAreEqual, TextsAgree, TextsAgreeOnInterfaces};

/// Two definitions are the same exactly where they are of one sort and have equal parts.
pub fn same_definitions_are_equal()
    ensures { DefinitionsAreEqual }
{}

/// Two interfaces are the same exactly where the definitions are of one sort and what others rely on is equal.
pub fn same_interfaces_are_equal()
    ensures { InterfacesAreEqual }
{}

/// Two texts agree on a name exactly where both define it, equally.
pub fn texts_agree_where_equal()
    ensures definitions { TextsAgree }
    ensures interfaces { TextsAgreeOnInterfaces }
{}

/// The changed names are exactly those whose definition is another or gone, and the interface set those whose interface is.
pub fn changed_names_are_the_others()
    ensures definitions { ChangedExactly }
    ensures interfaces { InterfaceExactly }
{}

/// The added names are exactly those that the newer text alone defines.
pub fn added_names_are_the_new_ones()
    ensures { AddedExactly }
{}
