//! Some code as text.
use crate::line::add_instruction;
use bytecode::Instr;
use resolved_tree::Trees;
use std::alloc::{AllocError, Global};

/// The lines of some code, whose words are those of a table of trees.
pub fn listing(alloc: Global, trees: &Trees, code: &[Instr]) -> Result<String, AllocError> {
    let mut text = String::new(alloc);
    for (place, instr) in code.iter().enumerate() {
        write!(text, "{place:>3} ")?;
        add_instruction(&mut text, trees, place, *instr)?;
        text.push('\n')?;
    }
    Ok(text)
}
