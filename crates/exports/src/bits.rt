// A bit as C has it.
ghost use Rattle.std.specs.Prelude.{◌≡◌};
ghost use Rattle.refusals.specs.Refusals.{as_number};
ghost use Rattle.refusals.specs.Numbers.{answer_of};
ghost use Rattle.flag_numbers.specs.Flagged.{bit_number};

use refusals::Refusal;

// 0 or 1, or the refusal's number.
pub(crate) fn bit_or_code(answer: Result<bool, Refusal>) -> u8
    ensures { result ≡ as_number bit_number (answer_of answer) }
{
    match answer {
        Ok(bit) => u8::from(bit),
        Err(e) => e.number(),
    }
}
