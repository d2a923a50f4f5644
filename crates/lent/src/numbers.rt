//! Calls and answers as numbers, four for each.
ghost use Rattle.std.specs.Prelude.{◌≡◌};
ghost use Rattle.lent.specs.Numbers.{call_of, numbers_of};

use fault::Fault;
use store::{Answer, Call};

/// The call of the script's letter and up to three fields in the script's order.
pub fn call_of(numbers: [u64; 4]) -> Option<Call>
    ensures { result ≡ call_of numbers }
{
    let [letter, first, second, third] = numbers;
    match u8::try_from(letter).ok()? {
        b'b' => Some(Call::Begin(first)),
        b'l' => Some(Call::Load(first, second)),
        b's' => Some(Call::Store(first, second, third)),
        b'c' => Some(Call::Commit(first)),
        b'a' => Some(Call::Abort(first)),
        b'm' => Some(Call::Seat(first, second)),
        b'd' => Some(Call::Drop(first, second)),
        _ => None,
    }
}

/// Granted: 0, how many values, the values. Refused: the layer's letter, the refusal's number, what
/// it carries.
pub fn numbers_of(answer: Result<Answer, Fault>) -> [u64; 4]
    ensures { result ≡ numbers_of answer }
{
    match answer {
        Ok(Answer::Done) => [0, 0, 0, 0],
        Ok(Answer::Word(word)) => [0, 1, word, 0],
        Ok(Answer::Ended(records, figure)) => [0, 2, records, figure],
        Err(fault) => [u64::from(fault.letter()), fault.number(), fault.place(), 0],
    }
}
