ghost use Rattle.std.specs.Prelude.{◌≡◌, ◌↔◌, IfNone, IfSome, IsTrue, map, string_bytes};
ghost use Rattle.std.specs.Char.{is_ascii_digit};
ghost use Rattle.std.specs.List.{AllByRecursion, list_all};
ghost use Rattle.tcel_tool.specs.CommandLine.{fit, fits, is_number};
ghost use Rattle.tcel_tool.specs.Commands.{HasForm, HaveNoForm, name_of, slots_of};

use crate::stages::number_of;

/// The commands (docs/commands.md).
#[derive(Clone, Copy, Debug, PartialEq, Eq)]
pub enum Command {
    Compile,
    Run,
    Format,
    Check,
    Mean,
    Analyse,
    Timeline,
    Linked,
    Fewest,
    Make,
    Trial,
    Judge,
}

/// What a word behind a command's name is: the name of a file, or 1 to 18 decimal digits.
#[derive(Clone, Copy, Debug, PartialEq, Eq)]
pub enum Slot {
    File,
    Number,
    /// A number above 0.
    Positive,
}

const COMMANDS: [Command; 12] = [
    Command::Compile,
    Command::Run,
    Command::Format,
    Command::Check,
    Command::Mean,
    Command::Analyse,
    Command::Timeline,
    Command::Linked,
    Command::Fewest,
    Command::Make,
    Command::Trial,
    Command::Judge,
];

const MOST_DIGITS: usize = 18;

impl Command {
    fn name(self) -> &'static str
        ensures { result.now ≡ name_of self }
    {
        match self {
            Command::Compile => "compile",
            Command::Run => "run",
            Command::Format => "format",
            Command::Check => "check",
            Command::Mean => "mean",
            Command::Analyse => "analyse",
            Command::Timeline => "timeline",
            Command::Linked => "linked",
            Command::Fewest => "fewest",
            Command::Make => "make",
            Command::Trial => "trial",
            Command::Judge => "judge",
        }
    }

    fn slots(self) -> &'static [Slot]
        ensures { result.now ≡ slots_of self }
    {
        match self {
            Command::Compile | Command::Analyse | Command::Fewest => &[Slot::File, Slot::File],
            Command::Run | Command::Mean | Command::Timeline => {
                &[Slot::File, Slot::File, Slot::Number]
            }
            Command::Linked => &[Slot::File, Slot::File, Slot::File, Slot::File, Slot::Number],
            Command::Format | Command::Check => &[Slot::File],
            Command::Make => &[Slot::Number, Slot::Positive],
            Command::Trial => &[Slot::Number, Slot::Positive, Slot::Number],
            Command::Judge => &[Slot::File, Slot::File, Slot::File, Slot::File, Slot::Number],
        }
    }
}

/// The command whose form the words have.
pub(crate) fn command_of(words: &[String]) -> Option<Command>
    ensures some { IfSome result (λ command. HasForm command (map string_bytes words.now)) }
    ensures none { IfNone result (HaveNoForm (map string_bytes words.now)) }
{
    first_of(&COMMANDS, words)
}

/// The first of these commands whose form the words have.
fn first_of(commands: &[Command], words: &[String]) -> Option<Command>
    ensures some { IfSome result (λ command. HasForm command (map string_bytes words.now)) }
    ensures none { IfNone result (AllByRecursion (λ command. ¬ HasForm command (map string_bytes words.now)) commands.now) }
{
    match commands {
        [] => None,
        [first, ..] if has_form(*first, words) => Some(*first),
        [_, rest @ ..] => first_of(rest, words),
    }
}

fn has_form(command: Command, words: &[String]) -> bool
    ensures { IsTrue result ↔ HasForm command (map string_bytes words.now) }
{
    match words {
        [name, rest @ ..] => is_word(name, command.name()) && fit(command.slots(), rest),
        [] => false,
    }
}

fn is_word(word: &String, wanted: &str) -> bool
    ensures { IsTrue result ↔ (string_bytes word.now ≡ wanted.now) }
{
    word.as_str() == wanted
}

/// Whether the words may stand in the slots, one in each.
fn fit(slots: &[Slot], words: &[String]) -> bool
    ensures { result ≡ fit slots.now (map string_bytes words.now) }
{
    match slots {
        [] => words.is_empty(),
        [slot, slots @ ..] => match words {
            [] => false,
            [word, words @ ..] => fits(*slot, word.as_bytes()) && fit(slots, words),
        },
    }
}

fn fits(slot: Slot, word: &[u8]) -> bool
    ensures { result ≡ fits slot word.now }
{
    match slot {
        Slot::File => true,
        Slot::Number => is_number(word),
        Slot::Positive => is_number(word) && number_of(word) > 0,
    }
}

fn is_number(word: &[u8]) -> bool
    ensures { result ≡ is_number word.now }
{
    !word.is_empty() && word.len() <= MOST_DIGITS && all_digits(word)
}

fn all_digits(word: &[u8]) -> bool
    ensures { result ≡ list_all is_ascii_digit word.now }
{
    word.iter().all(|byte| byte.is_ascii_digit())
}
