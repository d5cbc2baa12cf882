//! What is drawn for the functions of a program.
ghost use Rattle.std.specs.Prelude.{◌≡◌, ◌<◌, IfOk};
ghost use Rattle.program_gen.specs.Generated.{amount};
ghost use Rattle.program_gen.specs.Shown.{functions_with};

use crate::draws::Draws;
use std::alloc::{AllocError, Global};

/// A function of a program.
#[derive(Clone, Copy)]
pub(crate) struct Function {
    pub(crate) number: u32,
    /// The function that it calls; the first one calls none.
    pub(crate) callee: u32,
    /// What it adds to the global.
    pub(crate) amount: u32,
    /// The function that main calls beside it.
    pub(crate) partner: u32,
}

/// The functions of the program of a seed.
pub(crate) fn functions_of(alloc: Global, seed: u64, size: u32) -> Result<Vec<Function>, AllocError>
    requires { 0 < size }
    ensures { IfOk result (λ functions. functions.items ≡ functions_with seed size (amount seed) size) }
{
    let mut draws = Draws::new(seed);
    let mut functions = Vec::new(alloc);
    for number in 0..size {
        let callee = draws.below(number.max(1));
        let amount = draws.below(9);
        let partner = draws.below(size);
        functions.push(Function {
            number,
            callee,
            amount,
            partner,
        })?;
    }
    Ok(functions)
}
