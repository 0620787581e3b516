ghost use Rattle.std.specs.Prelude.{◌≡◌};
ghost use Rattle.dmf_c.specs.Codes.{refusal_code, answer_code};

use dmf_session::{Refusal, Reply};

/// The number of an answer.
pub fn answer_code(answer: &Result<Reply, Refusal>) -> u32
    ensures { result ≡ answer_code answer.now }
{
    match answer {
        Ok(_) => 0,
        Err(refusal) => refusal_code(*refusal),
    }
}

pub fn refusal_code(refusal: Refusal) -> u32
    ensures { result ≡ refusal_code refusal }
{
    match refusal {
        Refusal::NoMemory => 1,
        Refusal::NoSuchNode => 2,
        Refusal::NoSuchArc => 3,
        Refusal::Closed => 4,
        Refusal::TooManyArcs => 5,
        Refusal::SumTooLarge => 6,
        Refusal::NothingToUndo => 7,
        Refusal::NothingToRedo => 8,
        Refusal::NotGreatest => 9,
        Refusal::UnknownCommand
        | Refusal::FieldCount
        | Refusal::NotANumber
        | Refusal::TooLarge
        | Refusal::LineTooLong => 99,
    }
}
