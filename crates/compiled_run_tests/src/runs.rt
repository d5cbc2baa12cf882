//! Moves of the threads of texts in many orders.
use crate::pair::{SLOTS, are_alike, compiled_of, plain_of, step};
use crate::texts::{ENDINGS, TEXTS, THREADS};
use compiled_run::CompiledRun;
use run_machine::Machine;
use source_runner::SourceRun;
use std::alloc::{AllocError, Global};
use std::test::Fail;

/// How many moves are tried at most.
const MOVES: usize = 600;

/// The next number of a linear generator.
pub(crate) fn next(x: u32) -> u32 {
    x.wrapping_mul(1_664_525).wrapping_add(1_013_904_223)
}

/// Whether both go alike, with the slots in an order that a number gives. After each fourth move the code lets go of what it has
/// printed.
fn go_alike(
    plain: &mut SourceRun,
    compiled: &mut CompiledRun,
    seed: u32,
) -> Result<bool, AllocError> {
    let mut x = seed;
    let mut seen = 0;
    for turn in 0..MOVES {
        x = next(x);
        let slot = ((x >> 16) % (SLOTS as u32 + 1)) as u8;
        if !step(plain, compiled, slot, seen)? {
            return Ok(false);
        }
        if turn % 4 == 3 {
            seen = plain.output().len();
            compiled.forget();
        }
    }
    Ok(true)
}

/// Whether both runs of a text go alike.
fn runs_alike(alloc: Global, text: &str, seed: u32) -> Result<bool, Fail> {
    let mut plain = plain_of(alloc, &[text])?;
    let mut compiled = compiled_of(alloc, &[text])?;
    let alike = are_alike(&plain, &compiled) && go_alike(&mut plain, &mut compiled, seed)?;
    drop(compiled);
    drop(plain);
    Ok(alike)
}

/// Which line of some texts is the first whose runs don't go alike, by any of three orders.
fn first_apart(alloc: Global, texts: &str) -> Result<Option<usize>, Fail> {
    for (line, text) in texts.split('\n').enumerate() {
        for seed in 1..4u32 {
            if !runs_alike(alloc, text, seed)? {
                return Ok(Some(line));
            }
        }
    }
    Ok(None)
}

#[test]
fn each_construct_is_executed_as_the_source_machine_does(rt: HostRuntime) -> Result<(), Fail> {
    assert!(rt; first_apart(rt.alloc(), TEXTS)? == None);
    Ok(())
}

#[test]
fn threads_go_as_those_of_the_source_machine(rt: HostRuntime) -> Result<(), Fail> {
    assert!(rt; first_apart(rt.alloc(), THREADS)? == None);
    Ok(())
}

#[test]
fn runs_end_as_those_of_the_source_machine(rt: HostRuntime) -> Result<(), Fail> {
    assert!(rt; first_apart(rt.alloc(), ENDINGS)? == None);
    Ok(())
}
