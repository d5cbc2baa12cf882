//! Names that are declared in tables within tables, as blocks lie in blocks. A [`Scopes`] has at
//! least one table, the outermost; contracts see the list of its tables, the innermost first, and
//! promise of each call exactly what it does to that list. A look-up takes one look into a map
//! however many tables there are: the map knows the innermost declaration of each name, and each
//! declaration which one it hides.
//!
//! - [`step`]: the steps by which the tables came about
//! - [`names`]: the names with their innermost declarations
//! - [`scopes`]: the tables
#![tactic(auto)]

mod names;
mod scopes;
mod step;

pub use scopes::Scopes;
