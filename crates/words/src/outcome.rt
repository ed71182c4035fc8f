// What a call that draws tells of its draw, without the generator: a call's answer is its outcome and the generator after the words used.
ghost use Rattle.words.specs.Promises.{RefusedPromise, GivesPromise, RaisedPromise};

use crate::refusal;

// The refusal's number (0 where the call is answered), the value, and the words used.
#[derive(Clone, Copy)]
pub struct Outcome {
    pub refusal: u32,
    pub value: u32,
    pub used: u32,
}

// A refused call: its number, value 0 and no words used.
pub fn refused(number: u32) -> Outcome
    ensures { RefusedPromise number result }
{
    Outcome {
        refusal: number,
        value: 0,
        used: 0,
    }
}

// An answered call: its value, and the words used.
pub fn gives(value: u32, used: u32) -> Outcome
    ensures { GivesPromise value used result }
{
    Outcome {
        refusal: refusal::ANSWERED,
        value,
        used,
    }
}

// An outcome with n added to its value, modulo 2^32; a refusal stays as it is.
#[tactic(auto, unfolding(crate::specs::Outcomes::raised_modulo, crate::specs::Outcomes::mapped, crate::specs::Outcomes::worked_on))]
pub fn raised(n: u32, o: Outcome) -> Outcome
    ensures { RaisedPromise n o result }
{
    if o.refusal == refusal::ANSWERED {
        return gives(n.wrapping_add(o.value), o.used);
    }
    o
}
