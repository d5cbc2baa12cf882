ghost use Rattle.std.specs.Prelude.{◌≡◌, IfOk};

use c_ints::Kind;
use dsu_io::Text;
use std::alloc::AllocError;

/// A name that a text writes, with the place of its token.
#[derive(Debug, Drop)]
pub struct Name {
    /// Its first byte, counted in bytes from 0.
    pub place: usize,
    pub text: Text,
}

/// A type of the profile.
#[derive(Debug, Drop)]
pub enum CType {
    Integer(Kind),
    /// `struct T *`, with the name `T`
    Handle(Name),
    /// `thrd_t`
    Thread,
}

impl Name {
    /// A copy, place and all.
    pub fn copy(&self) -> Result<Name, AllocError>
        ensures { IfOk result (λ copy. copy ≡ self.now) }
    {
        Ok(Name {
            place: self.place,
            text: self.text.clone()?,
        })
    }
}

impl CType {
    /// A copy, places and all.
    pub fn copy(&self) -> Result<CType, AllocError>
        ensures { IfOk result (λ copy. copy ≡ self.now) }
    {
        match self {
            CType::Integer(kind) => Ok(CType::Integer(*kind)),
            CType::Handle(name) => Ok(CType::Handle(name.copy()?)),
            CType::Thread => Ok(CType::Thread),
        }
    }
}
