// What document 01 orders of a call, worked out word by word from the order's own sentences.
use crate::calls::Call;
use crate::next_words::Words;
use crate::table::Row;
use crate::told::{BUDGET, Parts, Refused, Told, only};
use mersenne_twister::MersenneTwister;
use pcg::{Pcg32, Pcg64};
use random::{Backend, Random};
use wrapping::Wide;
use xoshiro::Xoshiro256PlusPlus;

// The bottle numbers of a list before a call: no two alike, and none 0.
pub(crate) fn fill(list: &mut [u32]) {
    let mut bottle = 0xB077_0000u32;
    for entry in list.iter_mut() {
        *entry = bottle;
        bottle = bottle.wrapping_add(7);
    }
}

fn swap(list: &mut [u32], i: u64, j: u64) {
    let i = i as usize;
    let j = j as usize;
    if i < list.len() && j < list.len() {
        list.swap(i, j);
    }
}

// Draws one after the other: below r, one less, and so on down to `last`, each from the first good word that is left of the budget, with
// the swap of a shuffle. The value is the last quotient.
fn drawn(g: Random, r: u64, last: u64, budget: u32, list: &mut [u32]) -> Told<Random> {
    let mut words = Words::of(g, budget);
    let mut value = 0;
    for below in (last..=r).rev() {
        let Some(quotient) = words.draw(below) else {
            return only(Some(BUDGET), g);
        };
        value = quotient;
        swap(list, below.wrapping_sub(1), value);
    }
    let used = budget.wrapping_sub(words.left());
    let said = Ok(Parts {
        place: 0,
        value,
        used,
    });
    Told {
        said,
        next: words.generator(),
    }
}

// A draw, or none where `below` is 0.
fn draw(g: Random, below: u64, budget: u32) -> Told<Random> {
    drawn(g, below, below.max(1), budget, &mut [])
}

// A number from `first` on, of which so many are drawn from.
fn number(row: Row, g: Random, budget: u32) -> Told<Random> {
    let mut told = draw(g, row.below, budget);
    if let Ok(parts) = &mut told.said {
        parts.value = row.first.0.wrapping_add(parts.value) % 0x1_0000_0000;
    }
    told
}

// A place: `choose` tells the entry there, and `rand_slice`, of no list, only that it starts there.
fn picked(row: Row, g: Random, budget: u32, list: &[u32]) -> Told<Random> {
    let mut told = draw(g, row.below, budget);
    if let Ok(parts) = &mut told.said {
        parts.place = parts.value;
        parts.value = list
            .get(parts.place as usize)
            .map_or(0, |entry| u64::from(*entry));
    }
    told
}

// A shuffle draws below the length, one less, and so on down to 2, and swaps; refused, it leaves the list as it came.
fn shuffled(row: Row, g: Random, budget: u32, list: &mut [u32]) -> Told<Random> {
    let mut told = drawn(g, row.below, 2, budget, list);
    match &mut told.said {
        Ok(parts) => parts.value = 0,
        Err(_) => fill(list),
    }
    told
}

// The generator after the next double, and the words that it takes: one of 64 bits, or two of 32.
fn after_double(g: Random) -> (u32, Random) {
    let once = random::rand(g).next;
    match g.backend {
        Backend::MersenneTwister | Backend::Pcg32(_) => (2, random::rand(once).next),
        Backend::Xoshiro256PlusPlus(_) | Backend::Pcg64(_) => (1, once),
    }
}

fn next_double(g: Random) -> f64 {
    floats::double_of(random::u64(g).word)
}

// `bool`: whether the next double is below p.
fn flipped(row: Row, g: Random) -> Told<Random> {
    let (used, next) = after_double(g);
    let said = Ok(Parts {
        place: 0,
        value: u64::from(next_double(g) < row.first.float()),
        used,
    });
    Told { said, next }
}

// `uniform`: low + (high - low) * double. It does not tell the words.
fn spread(row: Row, g: Random) -> Told<Random> {
    let (_, next) = after_double(g);
    let low = row.first.float();
    let number = low + (row.second.float() - low) * next_double(g);
    let said = Ok(Parts {
        place: 0,
        value: float_bits::pattern_of(number),
        used: 0,
    });
    Told { said, next }
}

// `split` on xoshiro256++: the parent jumps.
fn split(g: Random) -> Random {
    match g.backend {
        Backend::Xoshiro256PlusPlus(x) => Random {
            backend: Backend::Xoshiro256PlusPlus(x.jump()),
            ..g
        },
        _ => g,
    }
}

// `seed` makes a generator anew by the kind's own call from a number, and keeps what the kind does not use.
fn seeded(g: Random, number: u32) -> Random {
    let wide = u64::from(number);
    let backend = match g.backend {
        Backend::Xoshiro256PlusPlus(_) => {
            Backend::Xoshiro256PlusPlus(Xoshiro256PlusPlus::from_u64_seed(wide))
        }
        Backend::MersenneTwister => {
            let twister = MersenneTwister::from_u32_seed(number);
            return Random { twister, ..g };
        }
        Backend::Pcg32(_) => Backend::Pcg32(Pcg32::from_u64_seed(wide)),
        Backend::Pcg64(_) => { Backend::Pcg64(Pcg64::from_u128_seed(Wide { high: 0, low: wide })) }
    };
    Random { backend, ..g }
}

// `set_mti` sets the twister's position, at most 624, and does nothing on the other kinds.
fn with_position(g: Random, position: u32) -> Random {
    let mut next = g;
    if let Backend::MersenneTwister = g.backend {
        next.twister.mti = position.min(624);
    }
    next
}

// The refusal that is ordered where the budget is enough: on xoshiro256++ `split` is answered.
fn refused(call: Call, row: Row, g: Random) -> Option<Refused> {
    match (call, g.backend) {
        (Call::Split, Backend::Xoshiro256PlusPlus(_)) => None,
        _ => row.refused,
    }
}

// The whole answer that is ordered; the list is filled, and then holds what it must hold after the call.
pub(crate) fn ordered(
    call: Call,
    row: Row,
    g: Random,
    list: &mut [u32],
    budget: u32,
) -> Told<Random> {
    fill(list);
    if let Some(refused) = refused(call, row, g) {
        return only(Some(refused), g);
    }
    match call {
        Call::Bounded | Call::RandomRange | Call::Uint => number(row, g, budget),
        Call::Char | Call::Int | Call::Range => number(row, g, budget),
        Call::Choose => picked(row, g, budget, list),
        Call::RandSlice => picked(row, g, budget, &[]),
        Call::Shuffle => shuffled(row, g, budget, list),
        Call::Bool => flipped(row, g),
        Call::Uniform => spread(row, g),
        Call::Split => only(None, split(g)),
        Call::Seed => only(None, seeded(g, row.first.word())),
        Call::SetMti => only(None, with_position(g, row.first.word())),
        // of nothing: it uses no word
        Call::FillBytes => only(None, g),
    }
}
