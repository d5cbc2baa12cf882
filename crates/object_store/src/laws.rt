//! What ties handles to the objects of the source machine, which go by the number of their creation.
ghost use Rattle.object_store.specs.Naming.{HandlesAreApart, StartsNamed, CreationNames, CreationFails, ChangeKeepsNames, EndKeepsNames};

/// Each creation gives its object's number a handle that no object had before, so the handles of all objects so far are
/// told from one another and from null. From then on the handle leads to the object as it was last changed, and nowhere
/// once the object was ended, whatever is created in its slot later.
pub fn handles_name_objects()
    ensures apart { HandlesAreApart }
    ensures start { StartsNamed }
    ensures created { CreationNames }
    ensures full { CreationFails }
    ensures changed { ChangeKeepsNames }
    ensures ended { EndKeepsNames }
{}
