//! What an install of a text needs.
ghost use Rattle.std.specs.Prelude.{◌≤◌, ◌^◌, length};

use word_installs::TextRow;
use word_layouts::Layout;

/// The tables of a text, by the numbers of the names of all texts of a run.
#[derive(Drop)]
pub struct TextData {
    /// Its globals and arrays.
    pub rows: Vec<Option<TextRow>>,
    /// Its structs.
    pub layouts: Vec<Option<Layout>>,
    /// The numbers of the mutexes that it doesn't have.
    pub gone: Vec<u32>,
    ghost few: { length rows.items ≤ 2 ^ 32 },
}
