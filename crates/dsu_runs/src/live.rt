use run_types::Event;

/// A run on its way, which a schedule can go on with.
#[derive(Drop)]
pub struct Live<E> {
    pub engine: E,
    /// The events that were made, the first one first.
    pub history: Vec<Event>,
    /// The slot whose thread acted last.
    pub last: Option<u8>,
    /// How many moves may still be made.
    pub left: u32,
}
