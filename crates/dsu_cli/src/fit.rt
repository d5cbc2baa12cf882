ghost use Rattle.std.specs.Prelude.{◌≡◌, IfSome, List, [], None, option_map};
ghost use Rattle.dsu_cli.specs.Words.{Line, Text as Word, behind_dashes, items, line, name_and_value, option, positional};
ghost use Rattle.dsu_cli.specs.Fit.{Steps, StepsTo, fits_items, fits_from, name_of, use_of};

use crate::command::Command;
use crate::setting::{Setting, Switch};
use dsu_io::Text;

/// What the words read so far come to.
#[derive(Clone, Copy)]
pub struct Seen {
    /// The option that waits for its value.
    pub waiting: Option<Setting>,
    pub positionals: usize,
    /// How many more offers may stand.
    pub offers_left: usize,
    pub workers: bool,
    pub moves: bool,
    pub objects: bool,
    pub engine: bool,
    pub journal: bool,
    pub explain: bool,
}

/// The most offers.
const MOST_OFFERS: usize = 63;

/// Whether the words after the command fit it. No memory is taken.
pub fn fit(command: Command, words: &[Text]) -> bool
    ensures { result ≡ fits_items (line command) (items None words.now) }
{
    let mut seen = Seen::nothing();
    for word in words {
        match seen.after(command, word.as_str()) {
            Some(next) => seen = next,
            None => return false,
        }
    }
    seen.is_whole(command)
}

impl Seen {
    fn nothing() -> Seen
        ensures { (l : Line) (words : List Word) → fits_from l result words ≡ fits_items l (items None words) }
    {
        Seen {
            waiting: None,
            positionals: 0,
            offers_left: MOST_OFFERS,
            workers: false,
            moves: false,
            objects: false,
            engine: false,
            journal: false,
            explain: false,
        }
    }

    /// What one more word makes of it; none where the words can't fit any more.
    fn after(self, command: Command, word: &str) -> Option<Seen>
        ensures { StepsTo (line command) self word.now result }
    {
        if let Some(setting) = self.waiting {
            return self.with_value(command, setting, word);
        }
        let Some(text) = behind_dashes(word) else {
            return self.with_positional(command, word);
        };
        if let Some((name, value)) = name_and_value(text) {
            return self.with_value(command, Setting::of(name)?, value);
        }
        if let Some(switch) = Switch::of(text) {
            return self.with_switch(command, switch);
        }
        Some(Seen {
            waiting: Some(Setting::of(text)?),
            ..self
        })
    }

    fn with_positional(self, command: Command, word: &str) -> Option<Seen>
        ensures steps { Steps (line command) self (positional word.now) result }
        ensures waits { IfSome result (λ next. next.waiting ≡ None) }
    {
        if !command.takes_positional(self.positionals, word) {
            return None;
        }
        Some(Seen {
            waiting: None,
            positionals: self.positionals + 1,
            ..self
        })
    }

    fn with_value(self, command: Command, setting: Setting, value: &str) -> Option<Seen>
        ensures steps { Steps (line command) self (option (name_of setting) value.now) result }
        ensures waits { IfSome result (λ next. next.waiting ≡ None) }
    {
        if !command.has(setting) || !setting.takes(value) {
            return None;
        }
        let seen = Seen {
            waiting: None,
            ..self
        };
        match setting {
            Setting::Offer if self.offers_left > 0 => Some(Seen {
                offers_left: self.offers_left - 1,
                ..seen
            }),
            Setting::Workers if !self.workers => Some(Seen {
                workers: true,
                ..seen
            }),
            Setting::Moves if !self.moves => Some(Seen {
                moves: true,
                ..seen
            }),
            Setting::Objects if !self.objects => Some(Seen {
                objects: true,
                ..seen
            }),
            Setting::Engine if !self.engine => Some(Seen {
                engine: true,
                ..seen
            }),
            _ => None,
        }
    }

    fn with_switch(self, command: Command, switch: Switch) -> Option<Seen>
        ensures steps { Steps (line command) self (use_of switch) result }
        ensures waits { IfSome result (λ next. next.waiting ≡ None) }
    {
        if !command.has_switch(switch) {
            return None;
        }
        let seen = Seen {
            waiting: None,
            ..self
        };
        match switch {
            Switch::Journal if !self.journal => Some(Seen {
                journal: true,
                ..seen
            }),
            Switch::Explain if !self.explain => Some(Seen {
                explain: true,
                ..seen
            }),
            _ => None,
        }
    }

    /// Whether the words may end here.
    fn is_whole(self, command: Command) -> bool
        ensures { result ≡ fits_from (line command) self [] }
    {
        self.waiting.is_none() && self.positionals >= command.positionals()
    }
}

/// What comes after the `--` of an option.
fn behind_dashes(word: &str) -> Option<&str>
    ensures { option_map (λ text. text.now) result ≡ behind_dashes word.now }
{
    word.strip_prefix("--")
}

/// The two parts of `name=value`, cut at its first `=`.
fn name_and_value(text: &str) -> Option<(&str, &str)>
    ensures { option_map (λ parts. (parts.0.now, parts.1.now)) result ≡ name_and_value text.now }
{
    text.split_once('=')
}
