//! The points of a function, and the ways between them.
use crate::Point;
use dsu_io::List;

/// The points of a function in order of evaluation, counted from 0, and for each of them in order the points to which
/// control may go from it without a point between, ascending.
#[derive(Debug, Drop)]
pub struct Skeleton {
    pub points: Vec<Point>,
    pub next: Vec<List<u32>>,
}
