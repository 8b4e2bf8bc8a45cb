// The numbers of an answer, in code: 0 is done, and a refusal has its number; other numbers are 0 but for 12.
// What they are stands in the model, specs/Answers.antt. It stands on `model`.
#![tactic(auto)]

ghost use Rattle.std.specs.Prelude.{◌≡◌};
ghost use Rattle.model.specs.declared.Numbers.{Numbers};
ghost use Rattle.model.specs.Answers.{numbers, refusal_numbers, outcome_numbers, counted_numbers, found_numbers};

use model::{Numbers, Refusal};

fn numbers(number: u32, first: u32, second: u32) -> Numbers
    ensures { result ≡ numbers number first second }
{
    Numbers {
        number,
        first,
        second,
    }
}

// By a match, since `as` gives no number where a case has fields.
pub fn refusal_numbers(refusal: Refusal) -> Numbers
    ensures { result ≡ refusal_numbers refusal }
{
    match refusal {
        Refusal::NoSuchLot => numbers(1, 0, 0),
        Refusal::Damaged => numbers(2, 0, 0),
        Refusal::NotThisAccount => numbers(3, 0, 0),
        Refusal::WrongLength => numbers(4, 0, 0),
        Refusal::Unfit => numbers(5, 0, 0),
        Refusal::OutsideAccount => numbers(6, 0, 0),
        Refusal::Seen => numbers(7, 0, 0),
        Refusal::Gap => numbers(8, 0, 0),
        Refusal::WrongMark => numbers(9, 0, 0),
        Refusal::OutOfTurn => numbers(10, 0, 0),
        Refusal::Full => numbers(11, 0, 0),
        Refusal::MarkMissing { streams, how_many } => numbers(
            12,
            u32::from(streams),
            u32::from(how_many),
        ),
        Refusal::AlreadyOpen => numbers(13, 0, 0),
        Refusal::NoFreeLot => numbers(14, 0, 0),
        Refusal::UnfitAccount => numbers(15, 0, 0),
        Refusal::TooShort => numbers(16, 0, 0),
        Refusal::NotAccepted => numbers(17, 0, 0),
    }
}

// What a call answers, as numbers. (No `From`: `Numbers` is of `model` and `Result` of std, so its `impl` would
// have to stand in `model`, and docs/DECISIONS.md has the numbers of refusals once in code, here.)
pub trait Answer {
    ghost numbers_of: { Self → Numbers };

    fn numbers(self) -> Numbers
        ensures { result ≡ numbers_of self };
}

// Start, deliver, drop and the overview.
impl Answer for Result<(), Refusal> {
    ghost numbers_of = { outcome_numbers };

    fn numbers(self) -> Numbers {
        match self {
            Ok(()) => numbers(0, 0, 0),
            Err(refusal) => refusal_numbers(refusal),
        }
    }
}

// Open and load: the lot; close: the count of pieces; save: the image's length.
impl Answer for Result<u32, Refusal> {
    ghost numbers_of = { counted_numbers };

    fn numbers(self) -> Numbers {
        match self {
            Ok(n) => numbers(0, n, 0),
            Err(refusal) => refusal_numbers(refusal),
        }
    }
}

// Read.
impl Answer for Result<Option<u32>, Refusal> {
    ghost numbers_of = { found_numbers };

    fn numbers(self) -> Numbers {
        match self {
            Ok(Some(value)) => numbers(0, 1, value),
            Ok(None) => numbers(0, 0, 0),
            Err(refusal) => refusal_numbers(refusal),
        }
    }
}
