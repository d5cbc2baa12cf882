//! Moves after which private work is left for later.
use crate::pair::{SLOTS, are_alike, compiled_of, move_alike, plain_of};
use crate::runs::next;
use crate::texts::{TEXTS, THREADS};
use compiled_run::CompiledRun;
use run_machine::{LeavesWork, Machine};
use source_runner::SourceRun;
use std::alloc::{AllocError, Global};
use std::test::Fail;

/// How many moves are tried at most.
const MOVES: usize = 300;

/// Whether both go alike, with the slots in an order that a number gives, where the code does its private work after each third move.
fn go_alike(
    plain: &mut SourceRun,
    compiled: &mut CompiledRun,
    seed: u32,
) -> Result<bool, AllocError> {
    let mut x = seed;
    for turn in 0..MOVES {
        x = next(x);
        let slot = ((x >> 16) % (SLOTS as u32 + 1)) as u8;
        compiled.leave_work();
        if !move_alike(plain, compiled, slot)? {
            return Ok(false);
        }
        if turn % 3 == 2 {
            compiled.settle();
            if !compiled.try_settle() || !are_alike(plain, compiled) {
                return Ok(false);
            }
        }
    }
    Ok(plain.output() == compiled.output_from(0))
}

/// Which line of some texts is the first whose runs don't go alike, by either of two orders.
fn first_apart(alloc: Global, texts: &str) -> Result<Option<usize>, Fail> {
    for (line, text) in texts.split('\n').enumerate() {
        for seed in 1..3u32 {
            let mut plain = plain_of(alloc, &[text])?;
            let mut compiled = compiled_of(alloc, &[text])?;
            if !go_alike(&mut plain, &mut compiled, seed)? {
                return Ok(Some(line));
            }
        }
    }
    Ok(None)
}

#[test]
fn work_that_is_left_is_not_seen(rt: HostRuntime) -> Result<(), Fail> {
    assert!(rt; first_apart(rt.alloc(), TEXTS)? == None);
    Ok(())
}

#[test]
fn threads_that_leave_work_are_not_seen(rt: HostRuntime) -> Result<(), Fail> {
    assert!(rt; first_apart(rt.alloc(), THREADS)? == None);
    Ok(())
}

/// Asks that a value may cross threads.
fn crosses_threads<T: Send + Sync>(_value: &T) {}

#[test]
fn works_cross_threads(rt: HostRuntime) -> Result<(), Fail> {
    let compiled = compiled_of(rt.alloc(), &["int main(void) { return 0; }"])?;
    let work = compiled.work(rt.alloc())?;
    crosses_threads(&work);
    Ok(())
}
