//! Texts that have no fault, and offers of them.
ghost use Rattle.std.specs.Prelude.{All, IfSome};
ghost use Rattle.run_tests.specs.ReadTexts.{IsRead};

use c_front::read_text;
use c_types::Typed;
use std::alloc::Global;

/// An offer: its text, and after how many lines it is due.
#[derive(Clone, Copy)]
pub struct Offer {
    pub text: &'static str,
    pub lines: u32,
}

/// The tree of a text, which has no fault.
pub fn typed_of(alloc: Global, text: &str) -> Option<Typed>
    ensures { IfSome result IsRead }
{
    match read_text(alloc, text.as_bytes()) {
        Ok(typed) => Some(typed),
        Err(_) => None,
    }
}

/// The trees of some offers.
pub fn trees_of(alloc: Global, offers: &[Offer]) -> Option<Vec<Typed>>
    ensures { IfSome result (λ trees. All IsRead trees.items) }
{
    let mut trees = Vec::new(alloc);
    for offer in offers {
        trees.push(typed_of(alloc, offer.text)?).ok()?;
    }
    Some(trees)
}

/// After how many lines each is due.
pub fn lines_of(alloc: Global, offers: &[Offer]) -> Option<Vec<u32>> {
    let mut lines = Vec::new(alloc);
    for offer in offers {
        lines.push(offer.lines).ok()?;
    }
    Some(lines)
}
