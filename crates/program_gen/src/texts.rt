//! The lines of a program, and the two texts.
ghost use Rattle.std.specs.Prelude.{◌≡◌, ◌++◌, ◌<◌, IfOk, OnOk};
ghost use Rattle.std.specs.List.{flat_map};
ghost use Rattle.std.specs.String.{string_bytes};
ghost use Rattle.program_gen.specs.Generated.{program_text, offer_text, first_line, later_line, call_line};
ghost use Rattle.program_gen.specs.Shown.{line_of, call_of, text_of};

use crate::functions::{Function, functions_of};
use std::alloc::{AllocError, Global};

/// Makes the text of a program of `size` functions, and that of an offer in which the function in the middle
/// adds one more.
pub fn generate(alloc: Global, seed: u64, size: u32) -> Result<(Vec<u8>, Vec<u8>), AllocError>
    requires { 0 < size }
    ensures program { IfOk result (λ texts. texts.0.items ≡ program_text seed size) }
    ensures offer { IfOk result (λ texts. texts.1.items ≡ offer_text seed size) }
{
    let mut functions = functions_of(alloc, seed, size)?;
    let program = text_of(alloc, &functions)?;
    functions[size as usize / 2].amount += 1;
    let offer = text_of(alloc, &functions)?;
    Ok((program.into_bytes(), offer.into_bytes()))
}

/// The text of a program with these functions.
fn text_of(alloc: Global, functions: &[Function]) -> Result<String, AllocError>
    ensures { IfOk result (λ text. string_bytes text ≡ text_of functions.now) }
{
    let mut text = String::new(alloc);
    text.push_str("int g;\n")?;
    add_functions(&mut text, functions)?;
    text.push_str("int main(void) {\n")?;
    add_calls(&mut text, functions)?;
    text.push_str("return 0; }\n")?;
    Ok(text)
}

/// Adds the lines of functions.
fn add_functions(text: &mut String, functions: &[Function]) -> Result<(), AllocError>
    ensures { OnOk result (string_bytes text.new ≡ string_bytes text.old ++ flat_map line_of functions.now) }
{
    for function in functions {
        add_function(text, *function)?;
    }
    Ok(())
}

/// Adds the line of a function.
fn add_function(text: &mut String, function: Function) -> Result<(), AllocError>
    ensures { OnOk result (string_bytes text.new ≡ string_bytes text.old ++ line_of function) }
{
    if function.number == 0 {
        add_first(text, function.amount)
    } else {
        add_later(text, function.number, function.callee, function.amount)
    }
}

/// Adds the line of the first function.
fn add_first(text: &mut String, amount: u32) -> Result<(), AllocError>
    ensures { OnOk result (string_bytes text.new ≡ string_bytes text.old ++ first_line amount) }
{
    writeln!(text, "int f0(void) {{ g = g + {amount}; return 1; }}")
}

/// Adds the line of a later function.
fn add_later(text: &mut String, number: u32, callee: u32, amount: u32) -> Result<(), AllocError>
    ensures { OnOk result (string_bytes text.new ≡ string_bytes text.old ++ later_line number callee amount) }
{
    writeln!(
        text,
        "int f{number}(void) {{ int s = f{callee}(); g = g + {amount}; return s; }}"
    )
}

/// Adds the lines of main that call functions.
fn add_calls(text: &mut String, functions: &[Function]) -> Result<(), AllocError>
    ensures { OnOk result (string_bytes text.new ≡ string_bytes text.old ++ flat_map call_of functions.now) }
{
    for function in functions {
        add_call(text, function.number, function.partner)?;
    }
    Ok(())
}

/// Adds the line of main that calls two functions.
fn add_call(text: &mut String, number: u32, partner: u32) -> Result<(), AllocError>
    ensures { OnOk result (string_bytes text.new ≡ string_bytes text.old ++ call_line number partner) }
{
    writeln!(
        text,
        "dsu_tx {{ printf(\"%d\\n\", f{number}() + f{partner}()); }}"
    )
}
