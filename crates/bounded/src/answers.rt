// Answers over a lent table and by value, and what they say in document 01's numbers, as C is handed it.
ghost use Rattle.bounded.specs.Promises.{AnswerInPromise, OutcomeOfPromise, RefuseInPromise, AcceptInPromise, JoinedPromise};
ghost use Rattle.bounded.specs.Promises.{ByValuePromise};

use random::{Engine, Random};
use words::{Outcome, Reply};

// An answer in document 01's numbers, as definitions and promises have it: refusal 0 where the call is answered; where it is refused, value
// and used are 0, and next is the generator that came in. The calls here that build one take any number as a refusal: that keeps them.
#[derive(Clone, Copy)]
pub struct Answer<G> {
    pub next: G,
    pub refusal: u32,
    pub value: u32,
    pub used: u32,
}

// An answer over a lent table, and the table that it left: the answer by value.
pub fn by_value<T>(a: Reply<T, Engine>, mt: [u32; 624]) -> Reply<T, Random>
    ensures { ByValuePromise a mt result }
{
    Reply {
        next: random::with_table(a.next, mt),
        told: a.told,
    }
}

// The answer of an outcome: with the engine after its words.
pub fn answer_in(o: Outcome, next: Engine) -> Answer<Engine>
    ensures { AnswerInPromise o next result }
{
    Answer {
        next,
        refusal: o.refusal,
        value: o.value,
        used: o.used,
    }
}

// The outcome of an answer: all but its engine.
pub fn outcome_of(a: Answer<Engine>) -> Outcome
    ensures { OutcomeOfPromise a result }
{
    Outcome {
        refusal: a.refusal,
        value: a.value,
        used: a.used,
    }
}

// A refused call: its number, and the engine that came in.
pub fn refuse_in(number: u32, e: Engine) -> Answer<Engine>
    ensures { RefuseInPromise number e result }
{
    answer_in(words::refused(number), e)
}

// An answered call: its value, the words used, and the engine after them.
pub fn accept_in(value: u32, used: u32, next: Engine) -> Answer<Engine>
    ensures { AcceptInPromise value used next result }
{
    answer_in(words::gives(value, used), next)
}

// Either of them by value: the answer over a lent table, and the table that it left.
pub fn joined(a: Answer<Engine>, mt: [u32; 624]) -> Answer<Random>
    ensures { JoinedPromise a mt result }
{
    let e = a.next;
    let next = random::with_table(e, mt);
    Answer {
        refusal: a.refusal,
        value: a.value,
        used: a.used,
        next,
    }
}
