// What a call answers.
ghost use Rattle.std.specs.Prelude.{◌≡◌};
ghost use Rattle.firmware.specs.Answers.{settled};

use refusals::Refusal;
use state::{Core, Outcome};

// Done, with the number that the call returns, 0 where it returns none; or refused. A refused call returns the state as it was.
#[tactic(auto, unfolding(crate::specs::Answers::settled))]
pub fn settle(judged: Result<(), Refusal>, before: Core, after: Core, number: u32) -> Outcome<u32>
    ensures { result ≡ settled judged before after number }
{
    match judged {
        Ok(()) => Outcome {
            core: after,
            answer: Ok(number),
        },
        Err(refusal) => Outcome {
            core: before,
            answer: Err(refusal),
        },
    }
}
