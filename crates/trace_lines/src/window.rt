//! Which events are shown.
ghost use Rattle.std.specs.Prelude.{◌≡◌};
ghost use Rattle.trace_lines.specs.Windows.{is_of_thread, shows};

use run_types::Event;

/// Which events of a journal are shown.
#[derive(Clone, Copy)]
pub struct Window {
    /// The first line of the journal whose event is shown, and the last one.
    pub from: u32,
    pub to: u32,
    /// The slot of the thread whose moves and check-ins are shown; without one, those of all threads.
    pub thread: Option<u32>,
}

impl Window {
    /// Whether the event of a line is shown.
    #[inline(always)]
    pub fn shows(self, line: u32, event: Event) -> bool
        ensures { result ≡ shows self line event }
    {
        self.from <= line && line <= self.to && self.shows_thread(event)
    }

    /// Whether an event is one of the thread that is shown, or of an offer.
    fn shows_thread(self, event: Event) -> bool
        ensures { result ≡ is_of_thread self.thread event }
    {
        let Some(thread) = self.thread else {
            return true;
        };
        match event {
            Event::Move(slot) => slot as u32 == thread,
            Event::CheckIn(slot) => slot as u32 == thread,
            Event::Offer(_) | Event::Decide(_) | Event::Withdraw(_) => true,
        }
    }
}
