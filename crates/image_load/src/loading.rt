//! The code of the texts of a run, the first cells, and the tables of the texts.
ghost use Rattle.std.specs.Prelude.{◌≡◌, ◌≤◌, ◌<◌, ◌^◌, IfErr, IfOk, OnOk, length, map};
ghost use Rattle.name_sets.specs.Limit.{most_names};
ghost use Rattle.source_programs.specs.Programs.{text_in};
ghost use Rattle.code_image.specs.Images.{names_in};
ghost use Rattle.image_load.specs.declared.fault.LoadFault.TheVariants.{Memory};
ghost use Rattle.image_load.specs.Loaded.{AreAcceptedAs, AreLoaded, HasFewNames, HasFirstCells};
ghost use Rattle.image_load.specs.MadeTexts.{AreCompiled, ArePartsOf};
ghost use Rattle.image_load.specs.Numbering.{AreNumbers, AreTables, texts_of, words_of};
ghost use Rattle.image_load.specs.TextTables.{AreDataOf};

use crate::bodies::{compiled, outlined};
use crate::callees::callees_of;
use crate::cells::first_rows;
use crate::fault::LoadFault;
use crate::lengths::longest_print;
use crate::names::Run;
use crate::numbers::{MOST_NAMES, Numbers, numbers_of};
use crate::stacks::highest_stack;
use crate::tables::number;
use crate::text_data::TextData;
use crate::text_tables::tables_of;
use crate::texts::{Made, made_of};
use accepted_code::code_of_texts_is_that_of_their_functions;
use accepted_stops::accepted_names_are_few;
use c_types::Typed;
use code_image::CodeImage;
use resolved_tree::Trees;
use source_programs::first_globals;
use std::alloc::Global;
use text_code::Body;

/// So many globals and arrays have numbers of 32 bits.
const MOST_CELLS: usize = 0x1_0000_0000;

/// The texts of a run that were loaded.
#[derive(Drop)]
pub struct LoadedCode {
    pub image: CodeImage,
    /// The words of the first cells of the first text, by the numbers of the names of globals and arrays.
    pub cells: Vec<Vec<u64>>,
    /// The tables of each text.
    pub texts: Vec<TextData>,
}

/// The code of the texts that a run may have, the words of the first cells of the first one, and the tables of each text by the numbers of
/// the names of all of them. Of accepted texts whose mutexes and tags all have numbers the fault is lack of memory. Texts that aren't
/// accepted may be loaded, too; else the fault says that they aren't. It takes time n log n in the texts and in their cells, and linear in
/// the product of their number and that of their names.
pub fn load(alloc: Global, texts: &[Typed]) -> Result<LoadedCode, LoadFault>
    requires { 0 < length texts.now }
    ensures image { IfOk result (λ l. AreLoaded (map text_in texts.now) l.image) }
    ensures rows { IfOk result (λ l. length l.cells.items ≡ length (names_in (map text_in texts.now)).cells) }
    ensures cells { IfOk result (λ l. HasFirstCells (map text_in texts.now) (map (λ v. v.items) l.cells.items)) }
    ensures tables { IfOk result (λ l. AreDataOf (map text_in texts.now) l.texts.items) }
    ensures fault { let texts = map text_in texts.now in IfErr result (λ fault. AreAcceptedAs texts → HasFewNames texts → fault ≡ Memory) }
{
    let numbers = numbers_of(alloc, texts)?;
    under_numbers(alloc, texts, &numbers)
}

/// The same, where names have numbers.
fn under_numbers(alloc: Global, texts: &[Typed], numbers: &Numbers) -> Result<LoadedCode, LoadFault>
    requires some { 0 < length texts.now }
    requires numbers { AreTables (names_in (map text_in texts.now)) numbers.now }
    ensures image { IfOk result (λ l. AreLoaded (map text_in texts.now) l.image) }
    ensures rows { IfOk result (λ l. length l.cells.items ≡ length (names_in (map text_in texts.now)).cells) }
    ensures cells { IfOk result (λ l. HasFirstCells (map text_in texts.now) (map (λ v. v.items) l.cells.items)) }
    ensures tables { IfOk result (λ l. AreDataOf (map text_in texts.now) l.texts.items) }
    ensures fault { let texts = map text_in texts.now in IfErr result (λ fault. AreAcceptedAs texts → HasFewNames texts → fault ≡ Memory) }
{
    few_names(numbers)?;
    let cells = first_cells(alloc, texts, numbers)?;
    let tables = tables_of(alloc, numbers, texts)?;
    let image = image(alloc, texts, numbers)?;
    Ok(LoadedCode {
        image,
        cells,
        texts: tables,
    })
}

/// All names have numbers; else a fault.
fn few_names(numbers: &Numbers) -> Result<(), LoadFault>
    ensures mutexes { OnOk result (length numbers.now.mutexes.names.items ≤ most_names) }
    ensures tags { OnOk result (length numbers.now.tags.names.items ≤ most_names) }
    ensures cells { OnOk result (length numbers.now.cells.names.items ≤ 2 ^ 32) }
    ensures fault { IfErr result (λ fault. length numbers.now.mutexes.names.items ≤ most_names
        → length numbers.now.tags.names.items ≤ most_names → fault ≡ Memory) }
{
    if numbers.mutexes.names.len() > MOST_NAMES || numbers.tags.names.len() > MOST_NAMES {
        return Err(LoadFault::NotAccepted);
    }
    if numbers.cells.names.len() > MOST_CELLS {
        return Err(LoadFault::Memory);
    }
    Ok(())
}

/// The words of the first cells of the first text.
fn first_cells(
    alloc: Global,
    texts: &[Typed],
    numbers: &Numbers,
) -> Result<Vec<Vec<u64>>, LoadFault>
    requires some { 0 < length texts.now }
    requires numbers { AreTables (names_in (map text_in texts.now)) numbers.now }
    ensures rows { IfOk result (λ rows. length rows.items ≡ length (names_in (map text_in texts.now)).cells) }
    ensures cells { IfOk result (λ rows. HasFirstCells (map text_in texts.now) (map (λ v. v.items) rows.items)) }
    ensures fault { IfErr result (λ fault. fault ≡ Memory) }
{
    let program = texts[0].program();
    let globals = first_globals(alloc, program.definitions.as_slice())?;
    first_rows(alloc, numbers.cells.names.as_slice(), &globals)
}

/// The code of the texts.
fn image(alloc: Global, texts: &[Typed], numbers: &Numbers) -> Result<CodeImage, LoadFault>
    requires some { 0 < length texts.now }
    requires numbers { AreTables (names_in (map text_in texts.now)) numbers.now }
    requires mutexes { length numbers.now.mutexes.names.items ≤ most_names }
    requires tags { length numbers.now.tags.names.items ≤ most_names }
    ensures image { IfOk result (AreLoaded (map text_in texts.now)) }
    ensures fault { IfErr result (λ fault. AreAcceptedAs (map text_in texts.now) → fault ≡ Memory) }
{
    code_of_texts_is_that_of_their_functions();
    let mut trees = Trees::new(alloc);
    let outlines = outlined(alloc, &mut trees, texts)?;
    let bodies = compiled(alloc, &trees, texts, outlines.as_slice())?;
    let callees = callees_of(alloc, &trees, bodies.as_slice())?;
    let run = Run {
        texts,
        trees: &trees,
        callees: callees.words.as_slice(),
        cells: &numbers.cells.places,
        mutexes: &numbers.mutexes.places,
        tags: &numbers.tags.places,
        functions: &callees.numbers.places,
    };
    let parts = parts_of(alloc, &run, bodies.as_slice())?;
    Ok(CodeImage {
        trees,
        functions: parts.made.functions,
        callees: callees.words,
        bodies: parts.made.bodies,
        main: parts.main,
        mutexes: numbers.mutexes.names.len(),
        longest_print: parts.longest_print,
        highest_stack: parts.highest_stack,
    })
}

/// What an image is made of, but for its names.
#[derive(Drop)]
pub(crate) struct Parts {
    pub made: Made,
    pub main: u32,
    pub longest_print: usize,
    pub highest_stack: usize,
}

/// The functions of texts with these bodies, the number of the name `main`, how many bytes a stop prints at most, and the height of the
/// highest stack.
fn parts_of(alloc: Global, run: &Run, bodies: &[Vec<Body>]) -> Result<Parts, LoadFault>
    requires some { 0 < length run.now.texts.now }
    requires numbers { AreNumbers run.now }
    requires bodies { AreCompiled (words_of run.now) (texts_of run.now) (map (λ v. v.items) bodies.now) }
    ensures parts { IfOk result (ArePartsOf run.now) }
    ensures fault { IfErr result (λ fault. AreAcceptedAs (texts_of run.now) → fault ≡ Memory) }
{
    accepted_names_are_few();
    let main = number(run.functions, "main")?;
    let made = made_of(alloc, run, bodies)?;
    let longest_print = longest_print(run.trees, made.functions.as_slice())?;
    let highest_stack = highest_stack(made.functions.as_slice());
    Ok(Parts {
        made,
        main,
        longest_print,
        highest_stack,
    })
}
