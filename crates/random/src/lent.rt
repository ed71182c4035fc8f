// The lent layer: a generator's small words by value, and the twister's table lent by the caller. No table is copied.
ghost use Rattle.random.specs.Promises.{NextU32Promise, NextU64Promise, WidthPromise, NextOwnPromise, PseudoInPromise};

use crate::backend::Backend;
use crate::engine::{Engine, answer};
use crate::ready::{made_ready, next_ready};
use source::Drawn;

// The next word of 32 bits, which is what `rand` gives.
#[tactic(auto, using(crate::specs::ReadyLaws::made_ready_lem))]
pub fn next_u32(e: Engine, mt: &mut [u32; 624]) -> Drawn<u32, Engine>
    ensures { NextU32Promise e mt.old result mt.new }
{
    let ready = made_ready(e, mt);
    next_ready(ready, mt)
}

// The next word of 64 bits, by the kind's own order of halves.
pub fn next_u64(e: Engine, mt: &mut [u32; 624]) -> Drawn<u64, Engine>
    ensures { NextU64Promise e mt.old result mt.new }
{
    let mti = e.mti;
    match e.backend {
        Backend::Xoshiro256PlusPlus(x) => {
            let d = x.next_u64();
            answer(d.word, Backend::Xoshiro256PlusPlus(d.next), mti)
        }
        Backend::MersenneTwister => {
            let s = mersenne_twister::next_u64_in(mt, mti);
            answer(s.word, Backend::MersenneTwister, s.mti)
        }
        Backend::Pcg32(p) => {
            let d = p.next_u64();
            answer(d.word, Backend::Pcg32(d.next), mti)
        }
        Backend::Pcg64(p) => {
            let d = p.next_u64();
            answer(d.word, Backend::Pcg64(d.next), mti)
        }
    }
}

// How many bytes the kind's own word has.
pub fn width(backend: Backend) -> usize
    ensures { WidthPromise backend result }
{
    match backend {
        Backend::Xoshiro256PlusPlus(_) | Backend::Pcg64(_) => 8,
        Backend::MersenneTwister | Backend::Pcg32(_) => 4,
    }
}

// The next word of the kind's own width: one step of its engine.
#[tactic(auto, using(crate::specs::GeneratorLaws::own_wide, crate::specs::GeneratorLaws::own_narrow))]
pub fn next_own(e: Engine, mt: &mut [u32; 624]) -> Drawn<u64, Engine>
    ensures { NextOwnPromise e mt.old result mt.new }
{
    if width(e.backend) == 8 {
        return next_u64(e, mt);
    }
    let d = next_u32(e, mt);
    Drawn {
        word: d.word as u64,
        next: d.next,
    }
}

// The next 32 words, XORed.
#[tactic(auto, unfolding(crate::specs::Generator::pseudo_of))]
pub fn pseudo_in(e: Engine, mt: &mut [u32; 624]) -> Drawn<u32, Engine>
    ensures { PseudoInPromise e mt.old result mt.new }
{
    let mut next = e;
    let mut word: u32 = 0;
    for _n in 0..32u32 {
        let d = next_u32(next, mt);
        word ^= d.word;
        next = d.next;
    }
    Drawn { word, next }
}
