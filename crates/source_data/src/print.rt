//! What `printf` writes.
ghost use Rattle.std.specs.Prelude.{◌≡◌, ◌∷◌, ◌++◌, List, map, drop, IfOk, OnOk};
ghost use Rattle.c_semantics.specs.Values.{Value as SeenValue};
ghost use Rattle.source_model.specs.Printing.{is_literal, written, shown, others, printed};
ghost use Rattle.local_evaluation.specs.Values.{seen};

use c_format::Reading;
use itoa::Buffer;
use local_evaluation::Value;
use std::alloc::AllocError;

/// Adds what a format and its arguments print (C11 7.21.6.1). Where memory runs out, a prefix of it was added.
pub fn print(output: &mut Vec<u8>, format: &str, arguments: &[Value]) -> Result<(), AllocError>
    ensures { OnOk result (output.new.items ≡ output.old.items ++ printed format.now (map seen arguments.now)) }
{
    let mut reading = Reading::Text;
    let mut used = 0;
    for byte in format.as_bytes() {
        used = print_byte(output, *byte, reading, arguments, used)?;
        reading = reading.read(*byte);
    }
    Ok(())
}

/// Adds what one byte of a format prints, and gives how many arguments are used with it.
fn print_byte(
    output: &mut Vec<u8>,
    byte: u8,
    reading: Reading,
    arguments: &[Value],
    used: usize,
) -> Result<usize, AllocError>
    ensures bytes { OnOk result (output.new.items ≡ output.old.items ++ (written reading byte (drop used (map seen arguments.now))).bytes) }
    ensures arguments { IfOk result (λ now. drop now (map seen arguments.now) ≡ (written reading byte (drop used (map seen arguments.now))).arguments) }
{
    match reading.taken(byte) {
        Some(_) => print_argument(output, arguments, used),
        None => {
            if is_literal(reading, byte) {
                output.push(byte)?;
            }
            Ok(used)
        }
    }
}

/// Whether a byte of a format stands for itself.
fn is_literal(reading: Reading, byte: u8) -> bool
    ensures { result ≡ is_literal reading byte }
{
    match reading {
        Reading::Text => byte != b'%',
        Reading::Percent => byte == b'%',
        Reading::Long | Reading::Bad => false,
    }
}

/// Adds an argument in decimal, and gives how many are used with it.
fn print_argument(
    output: &mut Vec<u8>,
    arguments: &[Value],
    used: usize,
) -> Result<usize, AllocError>
    ensures bytes { OnOk result (output.new.items ≡ output.old.items ++ shown (drop used (map seen arguments.now))) }
    ensures others { IfOk result (λ now. drop now (map seen arguments.now) ≡ others (drop used (map seen arguments.now))) }
{
    match arguments.get(used) {
        Some(argument) => {
            print_value(output, *argument)?;
            Ok(used + 1)
        }
        None => Ok(used),
    }
}

/// Adds an integer in decimal, and nothing for other values.
fn print_value(output: &mut Vec<u8>, value: Value) -> Result<(), AllocError>
    ensures { OnOk result ((others : List SeenValue)
        → output.new.items ≡ output.old.items ++ shown (seen value ∷ others)) }
{
    match value {
        Value::Number(n) => {
            let mut digits = Buffer::new();
            output.extend_from_slice(digits.format(n.value()).as_bytes())
        }
        Value::Reference(_) | Value::Started(_) => Ok(()),
    }
}
