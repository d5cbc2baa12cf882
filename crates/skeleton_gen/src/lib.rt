//! The skeleton of a function's body, computed from its resolved tree: the points of the body, and between which of them
//! control may go.
//!
//! [`skeleton_of`] promises that the skeleton which it gives means, under the texts of the table of names, exactly the
//! skeleton that the definitions give the body (`specs/Skeletons.antt` of `c_semantics`). Where it answers that a name is
//! unknown, a point of the body uses a name that the table doesn't have.
//!
//! A skeleton is defined from the body's end to its beginning, since a part of a tree is known by where control goes after
//! it. So the code goes from right to left, and draws the points in that order: a [`Draft`](draft) has what is drawn so
//! far. The ids of the names are looked up at the end, in one walk over the points.
//!
//! Read in this order: `spot` (points with words for names), `draft` (what is drawn so far), `union` (ordered sets of
//! points), `step` (what an expression does in order), `expression` and `statement` (the parts of a tree, from right to
//! left), `naming` (ids for words) and `generate` (the whole).
#![tactic(auto)]

mod draft;
mod expression;
mod generate;
mod naming;
mod spot;
mod statement;
mod step;
mod union;

pub use generate::skeleton_of;
pub use naming::SkeletonFault;
