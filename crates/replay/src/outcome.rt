// What a call answers, as a row tells it: each kind of answer is read here alone.
use crate::digest::Digest;
use crate::sample::{ANSWER_WORDS, halves, joined};
use float_draws::Spread;
use floats::Uniform;
use lists::Entry;
use parts::Divided;
use random::Random;
use source::Drawn;
use words::{Given, Refusal, Reply};

// A float is its bits as an `f64`, a list or a buffer its digest, a place stands in the high half.
#[derive(Clone, Copy)]
pub(crate) struct Outcome {
    pub(crate) refusal: u32,
    pub(crate) value: u64,
    pub(crate) used: u32,
    pub(crate) next: Random,
}

impl Outcome {
    // The eight words that tell it: with the next two words, and the digest of the generator after the call.
    pub(crate) fn words(self) -> [u32; ANSWER_WORDS] {
        let (value_low, value_high) = halves(self.value);
        let (sum_low, sum_high) = halves(Digest::new().generator(self.next).0);
        let first = random::rand(self.next);
        let second = random::rand(first.next);
        [
            self.refusal,
            value_low,
            value_high,
            self.used,
            first.word,
            second.word,
            sum_low,
            sum_high,
        ]
    }

    // A call that refuses nothing and tells no words.
    pub(crate) fn plain(value: u64, next: Random) -> Outcome {
        Outcome {
            refusal: words::refusal::ANSWERED,
            value,
            used: 0,
            next,
        }
    }

    // A row that this program does not know: no recorded refusal has this number.
    pub(crate) fn unknown(g: Random) -> Outcome {
        Outcome {
            refusal: u32::MAX,
            value: 0,
            used: 0,
            next: g,
        }
    }

    pub(crate) fn of_word(d: Drawn<u32, Random>) -> Outcome {
        Outcome::plain(u64::from(d.word), d.next)
    }

    // What a call told, its value as one number; refused, value and words used are 0.
    fn told(told: Result<Given<u64>, Refusal>, next: Random) -> Outcome {
        match told {
            Ok(given) => Outcome {
                refusal: words::refusal::ANSWERED,
                value: given.value,
                used: given.used,
                next,
            },
            Err(refusal) => Outcome {
                refusal: refusal.number(),
                value: 0,
                used: 0,
                next,
            },
        }
    }

    pub(crate) fn of_draw(a: Reply<u32, Random>) -> Outcome {
        Outcome::told(a.told.map(|g| valued(u64::from(g.value), g.used)), a.next)
    }

    // A signed answer as the word that reads as it.
    pub(crate) fn of_int(a: Reply<i32, Random>) -> Outcome {
        let told = a
            .told
            .map(|g| valued(u64::from(g.value.cast_unsigned()), g.used));
        Outcome::told(told, a.next)
    }

    pub(crate) fn of_choice(a: Reply<Entry, Random>) -> Outcome {
        let told = a.told.map(|g| {
            let (place, _) = halves(g.value.place as u64);
            valued(joined(g.value.value, place), g.used)
        });
        Outcome::told(told, a.next)
    }

    pub(crate) fn of_start(a: Reply<usize, Random>) -> Outcome {
        Outcome::told(a.told.map(|g| valued(g.value as u64, g.used)), a.next)
    }

    pub(crate) fn of_flip(a: Reply<bool, Random>) -> Outcome {
        Outcome::told(a.told.map(|g| valued(u64::from(g.value), g.used)), a.next)
    }

    pub(crate) fn of_shuffle(a: Reply<(), Random>) -> Outcome {
        Outcome::told(a.told.map(|g| valued(0, g.used)), a.next)
    }

    pub(crate) fn of_spread(a: Spread<Random>) -> Outcome {
        let (refusal, value) = match a.answer {
            Uniform::Number(x) => (words::refusal::ANSWERED, float_bits::pattern_of(x)),
            Uniform::Refused(refusal) => (refusal, 0),
        };
        Outcome {
            refusal,
            value,
            used: 0,
            next: a.next,
        }
    }

    // The child is told by its digest.
    pub(crate) fn of_split(a: Divided<Random>) -> Outcome {
        Outcome {
            refusal: words::refusal::number_of(a.refusal),
            value: Digest::new().generator(a.child).0,
            used: 0,
            next: a.parent,
        }
    }
}

fn valued(value: u64, used: u32) -> Given<u64> {
    Given { value, used }
}
