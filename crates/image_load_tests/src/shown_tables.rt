//! What is found by the numbers of names, as text.
use code_image::CodeImage;
use image_load::{LoadedCode, TextData};
use std::test::Fail;
use word_installs::TextRow;
use word_layouts::Layout;

/// The names that functions have; for each text the numbers of its functions by these names, then its globals and arrays with their first words, its
/// structs with the number of their members, and the numbers of the mutexes that it doesn't have. A dot stands where a text has nothing.
pub(crate) fn add_tables(shown: &mut String, code: &LoadedCode) -> Result<(), Fail> {
    add_callees(shown, &code.image)?;
    for (number, of_text) in code.texts.iter().enumerate() {
        add_bodies(shown, &code.image, number)?;
        add_rows(shown, of_text)?;
        add_layouts(shown, of_text)?;
        let gone = of_text.gone.as_slice();
        write!(shown, "gone {gone:?}\n")?;
    }
    Ok(())
}

fn add_callees(shown: &mut String, image: &CodeImage) -> Result<(), Fail> {
    write!(shown, "callees")?;
    for name in image.callees.as_slice() {
        let name = image.word(*name);
        write!(shown, " {name}")?;
    }
    write!(shown, "\n")?;
    Ok(())
}

fn add_bodies(shown: &mut String, image: &CodeImage, text: usize) -> Result<(), Fail> {
    write!(shown, "text")?;
    if let Some(row) = image.bodies.get(text) {
        for body in row.as_slice() {
            add_body(shown, *body)?;
        }
    }
    write!(shown, "\n")?;
    Ok(())
}

fn add_body(shown: &mut String, body: Option<u32>) -> Result<(), Fail> {
    match body {
        Some(number) => write!(shown, " {number}")?,
        None => write!(shown, " .")?,
    }
    Ok(())
}

fn add_rows(shown: &mut String, of_text: &TextData) -> Result<(), Fail> {
    for row in of_text.rows.as_slice() {
        add_row(shown, row.as_ref())?;
    }
    Ok(())
}

fn add_row(shown: &mut String, row: Option<&TextRow>) -> Result<(), Fail> {
    match row {
        Some(row) => {
            let name = row.name.as_str();
            let words = row.first.as_slice();
            write!(shown, "{name} {words:?}\n")?;
        }
        None => write!(shown, ".\n")?,
    }
    Ok(())
}

fn add_layouts(shown: &mut String, of_text: &TextData) -> Result<(), Fail> {
    for layout in of_text.layouts.as_slice() {
        add_layout(shown, layout.as_ref())?;
    }
    Ok(())
}

fn add_layout(shown: &mut String, layout: Option<&Layout>) -> Result<(), Fail> {
    match layout {
        Some(layout) => {
            let tag = layout.tag.as_str();
            let fields = layout.kinds.len();
            write!(shown, "{tag} {fields}\n")?;
        }
        None => write!(shown, ".\n")?,
    }
    Ok(())
}
