//! How high the stacks of a text's functions are.
ghost use Rattle.std.specs.Prelude.{◌≡◌, ◌≤◌, Some, ℕ};
ghost use Rattle.thread_state.specs.Frames.{most_words};
ghost use Rattle.code_image.specs.StopHeights.{IsNeverHigher};
ghost use Rattle.code_image.specs.Stacks.{IsHighestStack};

use code_image::CodeFunction;

/// The height of the highest stack of some functions.
pub(crate) fn highest_stack(functions: &[CodeFunction]) -> usize
    ensures highest { IsHighestStack functions.now result }
    ensures low { result ≤ most_words }
{
    let mut most = 0usize;
    for function in functions {
        most = highest_with(function.verified.heights.as_slice(), most);
    }
    most
}

/// The greater of a number and of the heights of a stack.
fn highest_with(heights: &[Option<u8>], least: usize) -> usize
    ensures higher { least ≤ result }
    ensures never_higher { IsNeverHigher result heights.now }
    ensures least { (other : ℕ) → least ≤ other → IsNeverHigher other heights.now → result ≤ other }
{
    let mut most = least;
    for height in heights {
        most = most.max(height_at(*height));
    }
    most
}

/// The height at a place, and 0 where control doesn't come.
fn height_at(height: Option<u8>) -> usize
    ensures there { (h : ℕ) → height ≡ Some h → result ≡ h }
    ensures none { (other : ℕ) → ((h : ℕ) → height ≡ Some h → h ≤ other) → result ≤ other }
{
    match height {
        Some(height) => height as usize,
        None => 0,
    }
}
