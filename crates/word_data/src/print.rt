//! What a print writes (C11 7.21.6.1).
ghost use Rattle.std.specs.Prelude.{◌≡◌, ◌+◌, ◌++◌, ◌<◌, ◌≤◌, ◌∷◌, IfOk, OnErr, OnOk, drop, length, reverse, take, vec_capacity};
ghost use Rattle.std.specs.Option.{SomeIff};
ghost use Rattle.std.specs.Fmt.{signed_decimal};
ghost use Rattle.source_model.specs.Printing as printing;
ghost use Rattle.bytecode.specs.Words.{number_at};
ghost use Rattle.thread_state.specs.Frames.{IsSameOutside};
ghost use Rattle.c_format.specs.Formats.{taken};
ghost use Rattle.code_runs.specs.SharedStops.{printed_for, printed_words, shown_word};
ghost use Rattle.word_data.specs.Lengths.{longest_for, longest_number, longest_print, most_printed};
ghost use Rattle.word_data.specs.Stacks.{Leaves, stack_of};
ghost use Rattle.word_data.specs.Performing.{LeavesOne};

use crate::stack::leave;
use crate::stop::{Did, Stack};
use c_format::Reading;
use c_ints::Kind;
use itoa::Buffer;
use std::alloc::AllocError;

/// So many bytes at most one print of a run may write.
pub const MOST_PRINTED: usize = 1 << 31;

/// Adds what a format prints with the newest words of a stack, the newest last, and leaves the word 0 in their place. Where memory runs
/// out, a prefix of the bytes was added.
pub(crate) fn print_newest(
    output: &mut Vec<u8>,
    format: &str,
    words: &mut [u64],
    stack: Stack,
    count: usize,
) -> Result<Did, AllocError>
    requires taken { count ≤ stack.height }
    requires space { stack.low + stack.height < length words.old }
    ensures printed { OnOk result (output.new.items ≡ output.old.items ++ printed_words format.now (reverse (take count (stack_of words.old stack)))) }
    ensures leaves { IfOk result (λ did. Leaves words.new stack did (0 ∷ drop count (stack_of words.old stack))) }
    ensures elsewhere { IsSameOutside stack.low (stack.low + stack.height + 1) words.old words.new }
    ensures keeps { IfOk result (λ did. LeavesOne count stack did words.old words.new) }
    ensures long { OnOk result (length output.new.items ≤ length output.old.items + longest_print format.now) }
    ensures capacity { vec_capacity output.old ≤ vec_capacity output.new }
    ensures fault { OnErr result (words.new ≡ words.old) }
    ensures cause { OnErr result (vec_capacity output.old < length output.old.items + longest_print format.now) }
{
    let top = stack.low + stack.height;
    print(output, format, &words[top - count..top])?;
    Ok(leave(words, stack, count, 0))
}

/// Adds what a format and the words of its arguments print. Where memory runs out, a prefix of it was added.
fn print(output: &mut Vec<u8>, format: &str, arguments: &[u64]) -> Result<(), AllocError>
    ensures printed { OnOk result (output.new.items ≡ output.old.items ++ printed_words format.now arguments.now) }
    ensures long { OnOk result (length output.new.items ≤ length output.old.items + longest_print format.now) }
    ensures capacity { vec_capacity output.old ≤ vec_capacity output.new }
    ensures cause { OnErr result (vec_capacity output.old < length output.old.items + longest_print format.now) }
{
    let mut reading = Reading::Text;
    let mut used = 0;
    for byte in format.as_bytes() {
        used = print_byte(output, *byte, reading, arguments, used)?;
        reading = reading.read(*byte);
    }
    Ok(())
}

/// Adds what one byte of a format prints, and gives how many arguments are used with it.
fn print_byte(
    output: &mut Vec<u8>,
    byte: u8,
    reading: Reading,
    arguments: &[u64],
    used: usize,
) -> Result<usize, AllocError>
    ensures bytes { OnOk result (output.new.items ≡ output.old.items
        ++ (printed_for (taken reading byte) (printing.is_literal reading byte) byte (drop used arguments.now)).bytes) }
    ensures words { IfOk result (λ now. drop now arguments.now
        ≡ (printed_for (taken reading byte) (printing.is_literal reading byte) byte (drop used arguments.now)).words) }
    ensures long { OnOk result (length output.new.items
        ≤ length output.old.items + longest_for (taken reading byte) (printing.is_literal reading byte)) }
    ensures capacity { vec_capacity output.old ≤ vec_capacity output.new }
    ensures cause { OnErr result (vec_capacity output.old
        < length output.old.items + longest_for (taken reading byte) (printing.is_literal reading byte)) }
{
    match reading.taken(byte) {
        Some(kind) => print_argument(output, kind, arguments, used),
        None => {
            if is_literal(reading, byte) {
                output.push(byte)?;
            }
            Ok(used)
        }
    }
}

/// Whether a byte of a format stands for itself.
fn is_literal(reading: Reading, byte: u8) -> bool
    ensures { result ≡ printing.is_literal reading byte }
{
    match reading {
        Reading::Text => byte != b'%',
        Reading::Percent => byte == b'%',
        Reading::Long | Reading::Bad => false,
    }
}

/// Adds an argument in decimal, and gives how many are used with it.
fn print_argument(
    output: &mut Vec<u8>,
    kind: Kind,
    arguments: &[u64],
    used: usize,
) -> Result<usize, AllocError>
    ensures bytes { OnOk result (output.new.items ≡ output.old.items ++ (shown_word kind (drop used arguments.now)).bytes) }
    ensures words { IfOk result (λ now. drop now arguments.now ≡ (shown_word kind (drop used arguments.now)).words) }
    ensures long { OnOk result (length output.new.items ≤ length output.old.items + longest_number) }
    ensures capacity { vec_capacity output.old ≤ vec_capacity output.new }
    ensures cause { OnErr result (vec_capacity output.old < length output.old.items + longest_number) }
{
    match arguments.get(used) {
        Some(word) => {
            print_number(output, kind, *word)?;
            Ok(used + 1)
        }
        None => Ok(used),
    }
}

/// Adds the number of a kind that a word stands for, in decimal.
fn print_number(output: &mut Vec<u8>, kind: Kind, word: u64) -> Result<(), AllocError>
    ensures bytes { OnOk result (output.new.items ≡ output.old.items ++ signed_decimal (number_at kind word)) }
    ensures long { OnOk result (length output.new.items ≤ length output.old.items + longest_number) }
    ensures capacity { vec_capacity output.old ≤ vec_capacity output.new }
    ensures cause { OnErr result (vec_capacity output.old < length output.old.items + longest_number) }
{
    let number = word_arithmetic::convert(kind, word);
    let mut digits = Buffer::new();
    if kind.is_signed() {
        output.extend_from_slice(digits.format(number.cast_signed()).as_bytes())
    } else {
        output.extend_from_slice(digits.format(number).as_bytes())
    }
}

/// The most bytes that a print of a format writes, whatever its arguments; none where they are more than 2^31.
pub fn longest_print(format: &str) -> Option<usize>
    ensures { SomeIff result (longest_print format.now ≤ most_printed) (longest_print format.now) }
{
    let mut reading = Reading::Text;
    let mut longest = 0usize;
    for byte in format.as_bytes() {
        longest += longest_byte(reading, *byte);
        if longest > MOST_PRINTED {
            return None;
        }
        reading = reading.read(*byte);
    }
    Some(longest)
}

/// The most bytes that one byte of a format writes: those of the longest integer, -9223372036854775808, where it ends a conversion.
fn longest_byte(reading: Reading, byte: u8) -> usize
    ensures value { result ≡ longest_for (taken reading byte) (printing.is_literal reading byte) }
    ensures few { result ≤ longest_number }
{
    match reading.taken(byte) {
        Some(_) => 20,
        None => is_literal(reading, byte) as usize,
    }
}
