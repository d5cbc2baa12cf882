//! The effects of two functions, one of which calls the other in a transaction.
use crate::bodies::Kind::{After, Begin, End, Return, Uses};
use crate::bodies::Next::{On, Out};
use crate::bodies::{Body, bodies_of, effects_over, have};
use contextual_effects::Effects;
use dsu_io::Boxed;
use skeletons::{CheckInKind, Use};
use std::alloc::Global;
use std::test::Fail;

/// Function 0 is `atomic { work(); } read the global; return`, and function 1, `work`, is `write the global; return`. The
/// global is 2.
static BODIES: [Body; 2] = [
    Body {
        function: 0,
        generation: 0,
        points: &[
            (After(CheckInKind::Entry), 0, On),
            (Begin, 0, On),
            (After(CheckInKind::Begin), 1, On),
            (Uses(Use::Call, 1), 1, On),
            (After(CheckInKind::Call), 1, On),
            (End, 1, On),
            (After(CheckInKind::End), 0, On),
            (Uses(Use::ReadGlobal, 2), 0, On),
            (Return, 0, Out),
        ],
    },
    Body {
        function: 1,
        generation: 0,
        points: &[
            (After(CheckInKind::Entry), 0, On),
            (Uses(Use::WriteGlobal, 2), 0, On),
            (Return, 0, Out),
        ],
    },
];

/// The effects of both functions.
fn effects(alloc: Global) -> Result<Boxed<Effects>, Fail> {
    let bodies = bodies_of(alloc, &BODIES)?;
    let effects = effects_over(alloc, &bodies);
    drop(bodies);
    Ok(Boxed::of(alloc, effects?)?)
}

#[test]
fn standard_effects_have_those_of_callees(rt: HostRuntime) -> Result<(), Fail> {
    let effects = effects(rt.alloc())?;
    have(&rt, effects.get().standard(), "12|2|");
    Ok(())
}

#[test]
fn prior_effects_begin_with_the_transaction(rt: HostRuntime) -> Result<(), Fail> {
    let effects = effects(rt.alloc())?;
    have(&rt, effects.get().prior(), "||||12|12||||1|1|12");
    Ok(())
}

#[test]
fn future_effects_end_with_the_transaction(rt: HostRuntime) -> Result<(), Fail> {
    let effects = effects(rt.alloc())?;
    have(&rt, effects.get().future(), "12|12|12|12|||2|2||2|2|");
    Ok(())
}

#[test]
fn concrete_effects_go_on_in_the_caller(rt: HostRuntime) -> Result<(), Fail> {
    let effects = effects(rt.alloc())?;
    have(&rt, effects.get().concrete(), "12|12|12|12|2|2|2|2||2|2|2");
    Ok(())
}
