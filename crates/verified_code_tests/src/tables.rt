use crate::bodies::giving;
use bytecode::Instr;
use local_evaluation::Stop;
use name_sets::NameId;
use std::alloc::Global;
use std::test::Fail;
use verified_code::{Bodies, CodeUnit};

/// Bodies of two functions in three generations; the last one is there already.
fn table(alloc: Global) -> Result<Bodies, Fail> {
    let mut units: Vec<CodeUnit> = Vec::new(alloc);
    units.push(giving(alloc, 7, 1, 70)?)?;
    units.push(giving(alloc, 3, 1, 30)?)?;
    units.push(giving(alloc, 7, 4, 74)?)?;
    units.push(giving(alloc, 7, 1, 71)?)?;
    let bodies = Bodies::new(alloc, units)?;
    Ok(bodies)
}

fn place(bodies: &Bodies, function: usize, generation: u32) -> Result<Option<usize>, Fail> {
    match NameId::new(function) {
        Some(function) => Ok(bodies.find(function, generation)),
        None => Err(Fail::new("no function has that number")),
    }
}

#[test]
fn bodies_are_found(rt: HostRuntime) -> Result<(), Fail> {
    let bodies = table(rt.alloc())?;
    assert_eq!(rt; place(&bodies, 7, 1)?, Some(0));
    assert_eq!(rt; place(&bodies, 3, 1)?, Some(1));
    assert_eq!(rt; place(&bodies, 7, 4)?, Some(2));
    assert_eq!(rt; place(&bodies, 7, 2)?, None);
    assert_eq!(rt; place(&bodies, 7, 5)?, None);
    assert_eq!(rt; place(&bodies, 2, 1)?, None);
    assert_eq!(rt; place(&bodies, 2000, 4_000_000_000)?, None);
    Ok(())
}

/// Takes what threads may share.
fn is_shared<T: Send + Sync>(_value: &T) {}

#[test]
fn threads_may_share_a_table(rt: HostRuntime) -> Result<(), Fail> {
    let bodies = table(rt.alloc())?;
    is_shared(&bodies);
    Ok(())
}
