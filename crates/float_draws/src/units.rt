// Numbers from 0 up to, and without, 1.
ghost use Rattle.float_draws.specs.Promises.{FloatInPromise, DoubleInPromise, FloatPromise, DoublePromise};

use random::{Engine, Random, engine_of, with_table};

// A number from 0 up to, and without, 1, and the generator after it: by value or as an engine.
#[derive(Clone, Copy)]
pub struct Fraction<F, G> {
    pub value: F,
    pub next: G,
}

// (word >> 8) / 2^24 of the next word.
pub fn float_in(e: Engine, mt: &mut [u32; 624]) -> Fraction<f32, Engine>
    ensures { FloatInPromise e mt.old result mt.new }
{
    let d = random::next_u32(e, mt);
    Fraction {
        value: floats::float_of(d.word),
        next: d.next,
    }
}

// (word >> 11) / 2^53 of the next 64-bit word, by the kind's own order of halves.
pub fn double_in(e: Engine, mt: &mut [u32; 624]) -> Fraction<f64, Engine>
    ensures { DoubleInPromise e mt.old result mt.new }
{
    let d = random::next_u64(e, mt);
    Fraction {
        value: floats::double_of(d.word),
        next: d.next,
    }
}

// The same by value.
pub fn float(g: Random) -> Fraction<f32, Random>
    ensures { FloatPromise g result }
{
    let mut moved = g;
    let d = float_in(engine_of(g), &mut moved.twister.mt);
    let next = with_table(d.next, moved.twister.mt);
    Fraction {
        value: d.value,
        next,
    }
}

// The same by value.
pub fn double(g: Random) -> Fraction<f64, Random>
    ensures { DoublePromise g result }
{
    let mut moved = g;
    let d = double_in(engine_of(g), &mut moved.twister.mt);
    let next = with_table(d.next, moved.twister.mt);
    Fraction {
        value: d.value,
        next,
    }
}
