ghost use Rattle.std.specs.Prelude.{◌≡◌, nat_eq, IfOk, string_bytes};
ghost use Rattle.std.proofs.lemmas.Cmp.{nat_list_eq_equiv};
ghost use Rattle.std.specs.Cmp.{partial_equiv_from_equiv};
ghost use lib.Pointwise.{pointwise};

use std::alloc::{AllocError, Global};
use std::marker::Model;

/// A text that contracts see as the list of its bytes, which are UTF-8.
#[derive(Debug, Drop)]
pub struct Text {
    inner: String,
}

impl Model for Text {
    ghost use Rattle.std.specs.Prelude.{List as ListOf, ℕ, string_bytes};

    ghost Value = { ListOf ℕ };

    ghost view = { λ t. string_bytes t.inner };
}

unsafe impl Send for Text {}

unsafe impl Sync for Text {}

impl Text {
    /// A copy of `text`. It fails only when out of memory.
    pub fn of(alloc: Global, text: &str) -> Result<Text, AllocError>
        ensures { IfOk result (λ t. t ≡ text.now) }
    {
        Ok(Text {
            inner: String::from_str(alloc, text)?,
        })
    }

    pub fn as_str(&self) -> &str
        ensures { result.now ≡ self.now }
    {
        self.inner.as_str()
    }
}

impl From<String> for Text {
    ghost from_gives = { λ s t. t ≡ string_bytes s };

    /// Takes the text over; no memory is taken.
    fn from(inner: String) -> Text {
        Text { inner }
    }
}

impl Clone for Text {
    ghost is_clone = { λ s t. t ≡ s };

    fn clone(&self) -> Result<Text, AllocError> {
        Ok(Text {
            inner: self.inner.clone()?,
        })
    }
}

impl PartialEq for Text {
    ghost eq = { pointwise nat_eq };

    ghost laws = { partial_equiv_from_equiv nat_list_eq_equiv };

    fn eq(&self, other: &Text) -> bool {
        self.inner == other.inner
    }
}

impl Eq for Text {
    ghost laws = { nat_list_eq_equiv };
}
