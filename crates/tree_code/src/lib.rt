//! The code of resolved trees, and what ties it to local evaluation.
//!
//! A function's body is compiled by skeleton: its code is a function of its resolved tree, of the definitions of its version
//! and of the variables in scope. Its points are those of the tree, with their numbers, in order; between two points it does
//! what the tree does. Jumps are by distance, so the code of a part is the same wherever it stands, and no place is known
//! before the code is put together. An assignment to a variable whose value isn't used is a store alone, a condition's `!`
//! turns its jump round, and a conversion that leaves each word as it is has no instruction.
//!
//! The law: a frame of code matches one of the source machine where the code from its place does what is still to be
//! evaluated, its stack has the words of the values and its variables those of the variables. From there private instructions
//! come to the stop before which local evaluation ends, with the same operands and variables; or to the same trap. From the
//! types of what the stop leaves, the code after it goes on as the tree does. An engine that runs code needs no more:
//! `Matches` hides the instructions.
//!
//! Read `specs/Code` (the code of each tree), `CodedPieces` (from which place some code does pending pieces, by a recursion on
//! the pieces as what they mean is), `Ranges` (values in range, of which a word says all) and `CodeLaws`; the call of `laws`
//! carries them. The proof follows that of types: words and instructions (`proofs/WordValues`, `WordSteps`), places and
//! variables (`CodePlaces`, `Variables`), single pieces (`CodeSteps`, `CodeFine`), jumps between pieces (`CodeReached`),
//! expressions (`CodeTrees`, `CodeEffects`), loops, branches and blocks (`CodeLoops`, `CodeStatements`, `CodeBlocks`), and
//! lists of pieces (`LocalEvaluation`), and what comes after a stop (`AfterStops`). `Examples` has small trees and their code.
#![tactic(auto)]

mod laws;

pub use laws::code_does_what_trees_do;
