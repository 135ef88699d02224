// The words of a call.
ghost use Rattle.std.specs.Prelude.{◌≡◌, ◌↔◌, ◌≤◌, true, map, string_bytes, decimal, IfSome, IsTrue};
ghost use Rattle.std.specs.Str.{bytes_eq};
ghost use Rattle.grid_forms.specs.Words as words;
ghost use Rattle.grid_forms.specs.Words.{form_of, form_by_name, sized_form, number_among, IsWithin};

use itoa::Buffer;

/// The greatest seed of a made job. This limit and the next one are this project's own.
pub const MOST_SEED: u32 = 65_536;

/// The greatest size of a made job, in levels. The least is 1.
pub const MOST_SIZE: u32 = 1_000;

/// How an outcome is written.
#[derive(Clone, Copy, Debug, PartialEq, Eq)]
pub enum Layout {
    /// Lines of text, for readers.
    Text,
    /// JSON Lines: an object on each line.
    Lines,
}

/// What is to be done.
#[derive(Clone, Copy, Debug, PartialEq, Eq)]
pub enum Form {
    /// Reads a job, and writes a line that counts what it has.
    Check,
    /// Reads a job, runs its commands in order, and writes what came of it.
    Replay(Layout),
    /// Reads a job, runs its workers on threads of their own, and writes what came of it in the order that happened.
    Run(Layout),
    /// Reads a job, and writes its network as a job of the network alone.
    Print,
    /// Reads a job with HVDC lines, runs its commands in order, and writes the components of each live variant's buses,
    /// over the branches alone and over the lines too.
    Hvdc(Layout),
    /// Reads a job with contingencies, runs its commands in order, and writes what each contingency would do to the
    /// initial variant, found by several threads.
    Screen(Layout),
    /// Reads a job of a network with configured buses, runs its commands in order, and writes what came of it.
    Configured(Layout),
    /// Writes the made job of a seed and a size. It reads nothing.
    Make { seed: u32, size: u32 },
    /// Runs the made job of a seed and a size, and writes a line that counts what came of it. It reads nothing.
    Trial { seed: u32, size: u32 },
}

/// What the words ask for; None exactly where they are no form. The forms are `check`, `print`, `make SEED SIZE`,
/// `trial SEED SIZE`, and with `--json` behind them or without `replay`, `run`, `hvdc`, `screen` and `configured`. A
/// number is written in decimal digits without a leading zero; a seed is from 0 to `MOST_SEED`, a size from 1 to
/// `MOST_SIZE`. The program's name is not among the words. It takes no memory.
pub fn read_words(words: &[String]) -> Option<Form>
    ensures form { result ≡ form_of (map string_bytes words.now) }
    ensures within { IfSome result IsWithin }
{
    match words {
        [word] => form_named(word.as_str()),
        [word, layout] => form_with(word.as_str(), layout.as_str()),
        [word, seed, size] => form_sized(word.as_str(), seed.as_str(), size.as_str()),
        _ => None,
    }
}

fn form_named(word: &str) -> Option<Form>
    ensures form { result ≡ form_by_name word.now }
    ensures within { IfSome result IsWithin }
{
    match word {
        "check" => Some(Form::Check),
        "print" => Some(Form::Print),
        _ => outcome_form(word, Layout::Text),
    }
}

/// The form of a word that writes an outcome in a layout.
fn outcome_form(word: &str, layout: Layout) -> Option<Form>
    ensures form { result ≡ words.outcome_form layout word.now }
    ensures within { IfSome result IsWithin }
{
    match word {
        "replay" => Some(Form::Replay(layout)),
        "run" => Some(Form::Run(layout)),
        "hvdc" => Some(Form::Hvdc(layout)),
        "screen" => Some(Form::Screen(layout)),
        "configured" => Some(Form::Configured(layout)),
        _ => None,
    }
}

/// The form of a word with one behind it.
fn form_with(word: &str, layout: &str) -> Option<Form>
    ensures form { result ≡ words.form_with word.now layout.now }
    ensures within { IfSome result IsWithin }
{
    match layout {
        "--json" => outcome_form(word, Layout::Lines),
        _ => None,
    }
}

fn form_sized(word: &str, seed: &str, size: &str) -> Option<Form>
    ensures form { result ≡ sized_form word.now seed.now size.now }
    ensures within { IfSome result IsWithin }
{
    let seed = number_in(seed, 0, MOST_SEED)?;
    let size = number_in(size, 1, MOST_SIZE)?;
    match word {
        "make" => Some(Form::Make { seed, size }),
        "trial" => Some(Form::Trial { seed, size }),
        _ => None,
    }
}

/// Whether a text is the decimal digits of a number.
fn is_written(number: u32, text: &str) -> bool
    ensures { result ≡ bytes_eq (decimal number) text.now }
{
    let mut digits = Buffer::new();
    digits.format(number) == text
}

/// Whether a number is from `least` to `most` and a text is its decimal digits.
fn is_number(number: u32, text: &str, least: u32, most: u32) -> bool
    ensures { (IsTrue result)
        ↔ (least ≤ number) × (number ≤ most) × (bytes_eq (decimal number) text.now ≡ true) }
{
    least <= number && number <= most && is_written(number, text)
}

/// The number from `least` to `most` whose decimal digits are the text.
fn number_in(text: &str, least: u32, most: u32) -> Option<u32>
    ensures number { result ≡ number_among least most text.now }
    ensures within { IfSome result (λ n. (least ≤ n) × (n ≤ most)) }
{
    match text.parse::<u32>() {
        Ok(number) if is_number(number, text, least, most) => Some(number),
        _ => None,
    }
}
