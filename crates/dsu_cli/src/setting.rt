ghost use Rattle.std.specs.Prelude.{◌≡◌, option_map};
ghost use Rattle.dsu_cli.specs.Words.{engine_named, file_and_lines, is_engine, is_offer, is_value};
ghost use Rattle.dsu_cli.specs.Fit.{setting_of, switch_of, value_test};

use crate::job::EngineKind;
use crate::number::{DIGITS, is_number};

pub const MOST_WORKERS: u64 = 8;

pub const MOST_MOVES: u64 = 1_600_000;

pub const MOST_OBJECTS: u64 = 65_536;
/// The most printed lines after which an offer is made.
pub const MOST_LINES: u64 = 1_000_000;

/// The options with a value.
#[derive(Clone, Copy)]
pub enum Setting {
    Offer,
    Workers,
    Moves,
    Objects,
    Engine,
}

impl Setting {
    /// The option of this name.
    pub fn of(name: &str) -> Option<Setting>
        ensures { result ≡ setting_of name.now }
    {
        match name {
            "offer" => Some(Setting::Offer),
            "workers" => Some(Setting::Workers),
            "moves" => Some(Setting::Moves),
            "objects" => Some(Setting::Objects),
            "engine" => Some(Setting::Engine),
            _ => None,
        }
    }

    /// Whether the word can be its value.
    pub fn takes(self, word: &str) -> bool
        ensures { result ≡ value_test self word.now }
    {
        match self {
            Setting::Offer => is_offer(word),
            Setting::Workers => is_number(word, DIGITS, 1, MOST_WORKERS),
            Setting::Moves => is_number(word, DIGITS, 1, MOST_MOVES),
            Setting::Objects => is_number(word, DIGITS, 1, MOST_OBJECTS),
            Setting::Engine => is_engine(word),
        }
    }
}

/// The options without a value.
#[derive(Clone, Copy)]
pub enum Switch {
    Journal,
    Explain,
}

impl Switch {
    /// The option of this name.
    pub fn of(name: &str) -> Option<Switch>
        ensures { result ≡ switch_of name.now }
    {
        match name {
            "journal" => Some(Switch::Journal),
            "explain" => Some(Switch::Explain),
            _ => None,
        }
    }
}

/// The engine of this name.
pub fn engine_named(word: &str) -> Option<EngineKind>
    ensures { result ≡ engine_named word.now }
{
    match word {
        "compiled" => Some(EngineKind::Compiled),
        "plain" => Some(EngineKind::Plain),
        _ => None,
    }
}

/// Whether the word is the name of an engine.
pub fn is_engine(word: &str) -> bool
    ensures { result ≡ is_engine word.now }
{
    engine_named(word).is_some()
}

/// Whether the word can be a positional that names a file.
pub fn is_value(word: &str) -> bool
    ensures { result ≡ is_value word.now }
{
    !word.is_empty() && !word.starts_with('-')
}

/// The two parts of `FILE@LINES`, cut at its last `@`.
pub fn file_and_lines(word: &str) -> Option<(&str, &str)>
    ensures { option_map (λ parts. (parts.0.now, parts.1.now)) result ≡ file_and_lines word.now }
{
    word.rsplit_once('@')
}

/// Whether the word is `FILE@LINES`.
pub fn is_offer(word: &str) -> bool
    ensures { result ≡ is_offer word.now }
{
    if !is_value(word) {
        return false;
    }
    let Some((file, lines)) = file_and_lines(word) else {
        return false;
    };
    !file.is_empty() && is_number(lines, DIGITS, 0, MOST_LINES)
}
