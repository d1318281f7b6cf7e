// The frame call of document 01: how often the frame number of a SOF came again directly.
#![tactic(auto)]

ghost use Rattle.std.specs.Prelude.{◌≡◌};
ghost use Rattle.frame.specs.Frames.{empty, no_run_gives, refusal_of, repeats_after, counted_of, outcome};

use refusals::Refusal;

// The last frame number, and how often it came again directly. Before the first SOF none is seen, which is not frame 0.
// A flag and no Option: refusal 16 is also about a number or a count where none is seen.
#[derive(Clone, Copy, Debug, PartialEq, Eq)]
pub struct Frame {
    pub seen: bool,
    pub number: u32,
    pub repeats: u32,
}

// The frame record after a call, and the repeat count. A type of its own beside state's Outcome: the definitions
// and demands' theorems name the field `core` there, and `frame` here.
#[derive(Clone, Copy, Debug, PartialEq, Eq)]
pub struct Outcome {
    pub frame: Frame,
    pub answer: Result<u32, Refusal>,
}

// The frame record before the first SOF.
pub fn empty() -> Frame
    ensures { result ≡ empty }
{
    Frame {
        seen: false,
        number: 0,
        repeats: 0,
    }
}

#[tactic(auto, unfolding(crate::specs::Frames::no_run_gives))]
fn no_run_gives(frame: Frame) -> bool
    ensures { result ≡ no_run_gives frame }
{
    if frame.seen {
        2047 < frame.number || 15 < frame.repeats
    } else {
        frame != empty()
    }
}

fn judge(frame: Frame, number: u32) -> Result<(), Refusal>
    ensures { result ≡ refusal_of frame number }
{
    if 2047 < number || no_run_gives(frame) {
        return Err(Refusal::NoSuchFrame);
    }
    Ok(())
}

#[tactic(auto, unfolding(crate::specs::Frames::repeats_after))]
fn repeats_after(frame: Frame, number: u32) -> u32
    ensures { result ≡ repeats_after frame number }
{
    if !frame.seen || frame.number != number {
        return 0;
    }
    frame.repeats.saturating_add(1).min(15)
}

// A refused call returns the frame record as it was.
#[tactic(auto, unfolding(crate::specs::Frames::counted_of))]
pub fn counted(before: Frame, number: u32) -> Outcome
    ensures { result ≡ counted_of before number }
{
    let repeats = repeats_after(before, number);
    let after = Frame {
        seen: true,
        number,
        repeats,
    };
    match judge(before, number) {
        Ok(()) => Outcome {
            frame: after,
            answer: Ok(repeats),
        },
        Err(refusal) => Outcome {
            frame: before,
            answer: Err(refusal),
        },
    }
}

// The same, with the frame record updated where it stands.
pub fn count(frame: &mut Frame, number: u32) -> Result<u32, Refusal>
    ensures { outcome frame.new result ≡ counted_of frame.old number }
{
    let next = counted(*frame, number);
    *frame = next.frame;
    next.answer
}
