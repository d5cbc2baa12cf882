//! The data of a run that its threads share: globals and arrays by cells, objects, mutexes and the bytes that were printed.
//!
//! [`Store`] is the data, and [`perform`] makes a stop that reads or changes it, as the definitions of `source_model` say.
//!
//! Read in this order: `store` (the data), `shared_stops` (a stop), `cells`, `objects`, `mutexes`, `output` and `print` (what each
//! does).
#![tactic(auto)]

mod cells;
mod mutexes;
mod objects;
mod output;
mod print;
mod shared_stops;
mod store;

pub use mutexes::holder_of;
pub use objects::fresh;
pub use shared_stops::{Did, perform};
pub use store::{Field, Held, Object, Objects, Store};
