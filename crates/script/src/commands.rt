//! Commands: the call that a line asks for, or why it asks for none.
ghost use Rattle.std.specs.Prelude.{◌≡◌, ◌<◌};
ghost use Rattle.std.specs.Option.{ok_or};
ghost use Rattle.fault.specs.declared.Refusal.TheVariants.{UnknownCommand};
ghost use Rattle.script.specs.Commands.{call_of, command_of, commanded, fields_fit, number_at, parse_of, refuse};
ghost use Rattle.script.specs.Pieces.{fields_of};

use super::decimal::number;
use super::words::{Word, count_fields, word_at};
use fault::{Fault, Layer, Refusal};
use store::Call;

/// What a command letter stands for.
#[derive(Clone, Copy)]
pub(crate) enum Command {
    Begin,
    Load,
    Store,
    Commit,
    Abort,
    Seat,
    Drop,
}

impl TryFrom<char> for Command {
    type Error = Fault;

    ghost try_from_gives = { λ letter answer. answer ≡ ok_or (command_of letter) (refuse UnknownCommand) };

    fn try_from(letter: char) -> Result<Command, Fault> {
        match letter {
            'b' => Ok(Command::Begin),
            'l' => Ok(Command::Load),
            's' => Ok(Command::Store),
            'c' => Ok(Command::Commit),
            'a' => Ok(Command::Abort),
            'm' => Ok(Command::Seat),
            'd' => Ok(Command::Drop),
            _ => Err(Layer::Text.refuses(Refusal::UnknownCommand)),
        }
    }
}

impl Command {
    /// Whether a line with so many fields, the letter included, fits the command.
    fn takes(self, fields: u64) -> bool
        ensures { result ≡ fields_fit self fields }
    {
        match self {
            Command::Begin | Command::Commit | Command::Abort => fields == 2,
            Command::Load | Command::Seat | Command::Drop => fields == 3,
            Command::Store => fields == 4,
        }
    }
}

/// The call of a line, or its refusal: an unknown command, a wrong number of fields, the first field that is no number.
pub fn parse(line: &[u8]) -> Result<Call, Fault>
    ensures { result ≡ parse_of line.now }
{
    match line {
        [letter, b' ', rest @ ..] => call_named(*letter as char, line, 1 + count_fields(rest)),
        [letter] => call_named(*letter as char, line, 1),
        [] | [_, _, ..] => Err(Layer::Text.refuses(Refusal::UnknownCommand)),
    }
}

/// The call of a command letter, on a line in which so many fields were found.
fn call_named(letter: char, line: &[u8], found: u64) -> Result<Call, Fault>
    ensures { result ≡ commanded (command_of letter) found (fields_of line.now) }
{
    let command = Command::try_from(letter)?;
    if !command.takes(found) {
        return Err(Layer::Text.refuses(Refusal::WrongFieldCount(found)));
    }
    call_of(command, line)
}

/// The call of a command, with the numbers in the fields behind its letter.
fn call_of(command: Command, line: &[u8]) -> Result<Call, Fault>
    ensures { result ≡ call_of command (fields_of line.now) }
{
    match command {
        Command::Begin => Ok(Call::Begin(number_at(line, 2)?)),
        Command::Load => Ok(Call::Load(number_at(line, 2)?, number_at(line, 3)?)),
        Command::Store => Ok(Call::Store(
            number_at(line, 2)?,
            number_at(line, 3)?,
            number_at(line, 4)?,
        )),
        Command::Commit => Ok(Call::Commit(number_at(line, 2)?)),
        Command::Abort => Ok(Call::Abort(number_at(line, 2)?)),
        Command::Seat => Ok(Call::Seat(number_at(line, 2)?, number_at(line, 3)?)),
        Command::Drop => Ok(Call::Drop(number_at(line, 2)?, number_at(line, 3)?)),
    }
}

/// The number in the field at a position behind the letter's.
fn number_at(line: &[u8], position: u64) -> Result<u64, Fault>
    requires { 1 < position }
    ensures { result ≡ number_at (fields_of line.now) position }
{
    let Some(Word::Number(bytes, place)) = word_at(line, position) else {
        return Err(Layer::Text.refuses(Refusal::NotANumber(position)));
    };
    let Some(n) = number(bytes) else {
        return Err(Layer::Text.refuses(Refusal::NotANumber(place)));
    };
    Ok(n)
}
