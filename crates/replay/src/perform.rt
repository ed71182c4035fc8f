// A row's call.
use crate::calls::Call;
use crate::outcome::Outcome;
use crate::sample::joined;
use crate::{listed, runs};
use floats::Interval;
use random::Random;

fn float_of(low: u32, high: u32) -> f64 {
    float_bits::number_of(joined(low, high))
}

// None where there is no room for a list or a buffer.
pub(crate) fn perform(call: Call, g: Random, arguments: [u32; 4]) -> Option<Outcome> {
    let [a, b, c, d] = arguments;
    let (min, max) = (a.cast_signed(), b.cast_signed());
    let low = float_of(a, b);
    let outcome = match call {
        Call::Rand => Outcome::of_word(random::rand(g)),
        Call::U64 => u64(g),
        Call::I64 => i64(g),
        Call::Pseudo => Outcome::of_word(random::pseudo(g)),
        Call::Seed => Outcome::plain(0, making::seed(g, a)),
        Call::Split => Outcome::of_split(parts::split(g)),
        Call::Mti => Outcome::plain(u64::from(parts::mti(g)), g),
        Call::SetMti => Outcome::plain(0, parts::set_mti(g, a)),
        Call::Twist => Outcome::plain(0, parts::twist(g)),
        Call::FillBytes => return listed::fill_bytes(g, a),
        Call::Bounded => Outcome::of_draw(bounded::bounded(g, a, d)),
        Call::RandomRange => Outcome::of_draw(bounded::random_range(g, a, b, d)),
        Call::Int => Outcome::of_int(spans::int(g, min, max, d)),
        Call::Range => Outcome::of_int(spans::range(g, min, max, d)),
        Call::Uint => Outcome::of_draw(spans::uint(g, a, b, d)),
        Call::Char => Outcome::of_draw(bounded::char(g, d)),
        Call::Choose => return listed::choose(g, a, d),
        Call::Float => float(g),
        Call::Double => double(g),
        Call::Bool => Outcome::of_flip(float_draws::bool(g, low)),
        Call::Uniform => {
            let high = float_of(c, d);
            Outcome::of_spread(float_draws::uniform(g, Interval { low, high }))
        }
        Call::Shuffle => return listed::shuffle(g, a, d),
        Call::RandSlice => return listed::rand_slice(g, a, b, d),
        Call::Made => Outcome::plain(0, g),
        Call::Words => runs::words(g, a),
        Call::Draws => runs::draws(g, a),
    };
    Some(outcome)
}

fn u64(g: Random) -> Outcome {
    let d = random::u64(g);
    Outcome::plain(d.word, d.next)
}

// The word that reads as the answer.
fn i64(g: Random) -> Outcome {
    let d = random::i64(g);
    Outcome::plain(d.word.cast_unsigned(), d.next)
}

fn float(g: Random) -> Outcome {
    let d = float_draws::float(g);
    let wide = std::num::f32_to_f64_with_nan(d.value);
    Outcome::plain(float_bits::pattern_of(wide), d.next)
}

fn double(g: Random) -> Outcome {
    let d = float_draws::double(g);
    Outcome::plain(float_bits::pattern_of(d.value), d.next)
}
