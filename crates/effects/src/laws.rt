//! What the definitions of effects promise, each as the contract of a call that does nothing.

ghost use Rattle.effects.specs.GrowthLaws.{ConcreteGrows, FutureGrows, NestedGrows, PriorGrows, RowsGrow, StandardGrows, StoresGrow};
ghost use Rattle.effects.specs.LeastLaws.{ConcreteLeast, EachHasARow, FutureEnds, FutureLeast, GoesOnOrEnds, NestedLeast, NestedOrNot, OneRow, PriorIsInside, PriorLeast, StandardLeast};

/// Each family of sets is closed under its rules, and each decided family that is closed under them contains it. (In
/// `proofs/Least.antt` the same is shown for families that aren't decided.)
pub fn effects_are_least()
    ensures nested { NestedLeast }
    ensures standard { StandardLeast }
    ensures prior { PriorLeast }
    ensures future { FutureLeast }
    ensures concrete { ConcreteLeast }
{}

/// The prior effect of a point that isn't inside is empty, and so is the future effect of an ending end. A point goes on
/// exactly if it is no ending end.
pub fn effects_end()
    ensures prior { PriorIsInside }
    ensures future { FutureEnds }
    ensures nested { NestedOrNot }
    ensures goes_on { GoesOnOrEnds }
{}

/// When bodies are added to a store, each of its sets stays or grows, and so do the rows of its marks. An install adds
/// bodies, and changes none.
pub fn effects_grow()
    ensures nested { NestedGrows }
    ensures standard { StandardGrows }
    ensures prior { PriorGrows }
    ensures future { FutureGrows }
    ensures concrete { ConcreteGrows }
    ensures rows { RowsGrow }
    ensures stores { StoresGrow }
{}

/// A mark has exactly one row over the bodies of a store.
pub fn each_mark_has_one_row()
    ensures exists { EachHasARow }
    ensures unique { OneRow }
{}
