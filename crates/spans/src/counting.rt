// Signed numbers out of outcomes: what is drawn is counted from an end, modulo 2^32, and read back as signed.
ghost use Rattle.spans.specs.Promises.{CountedPromise};

use words::Outcome;

// An outcome with a signed value. Where it is refused, value and used are 0.
#[derive(Clone, Copy)]
pub struct IntOutcome {
    pub refusal: u32,
    pub value: i32,
    pub used: u32,
}

// An outcome counted from min; a refusal has value 0.
pub fn counted(min: i32, o: Outcome) -> IntOutcome
    ensures { CountedPromise min o result }
{
    if o.refusal == words::refusal::ANSWERED {
        let value = signed::wrapping_add_signed(min, o.value);
        return IntOutcome {
            refusal: o.refusal,
            value,
            used: o.used,
        };
    }
    IntOutcome {
        refusal: o.refusal,
        value: 0,
        used: o.used,
    }
}
