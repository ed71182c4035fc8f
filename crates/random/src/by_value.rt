// Words by value: of 32 bits, of 64, and 32 words XORed. Each call hands back the next generator.
ghost use Rattle.random.specs.Promises.{EngineOfPromise, WithTablePromise, RandPromise, U64Promise, I64Promise, PseudoPromise};
ghost use Rattle.random.specs.Generator.{rand_of, u64_of};
ghost use Rattle.random.specs.SizedParts.{StaysSized};

use crate::backend::Random;
use crate::engine::Engine;
use crate::lent;
use mersenne_twister::MersenneTwister;
use source::{Drawn, Source};

// All of a generator but its table.
pub fn engine_of(g: Random) -> Engine
    ensures { EngineOfPromise g result }
{
    Engine {
        backend: g.backend,
        mti: g.twister.mti,
    }
}

// An engine and a table, joined to a generator.
pub fn with_table(e: Engine, mt: [u32; 624]) -> Random
    ensures { WithTablePromise e mt result }
{
    let twister = MersenneTwister { mt, mti: e.mti };
    Random {
        backend: e.backend,
        twister,
    }
}

// The next word.
pub fn rand(g: Random) -> Drawn<u32, Random>
    ensures answer { RandPromise g result }
    ensures sized { StaysSized g result.next }
{
    let mut moved = g;
    let d = lent::next_u32(engine_of(g), &mut moved.twister.mt);
    let next = with_table(d.next, moved.twister.mt);
    Drawn { word: d.word, next }
}

// The next 64-bit word, by the kind's own order of halves.
pub fn u64(g: Random) -> Drawn<u64, Random>
    ensures { U64Promise g result }
{
    let mut moved = g;
    let d = lent::next_u64(engine_of(g), &mut moved.twister.mt);
    let next = with_table(d.next, moved.twister.mt);
    Drawn { word: d.word, next }
}

// The next 64-bit word, read as signed.
pub fn i64(g: Random) -> Drawn<i64, Random>
    ensures { I64Promise g result }
{
    let d = u64(g);
    Drawn {
        word: signed::signed_u64(d.word),
        next: d.next,
    }
}

// The next 32 words, XORed.
pub fn pseudo(g: Random) -> Drawn<u32, Random>
    ensures { PseudoPromise g result }
{
    let mut moved = g;
    let d = lent::pseudo_in(engine_of(g), &mut moved.twister.mt);
    let next = with_table(d.next, moved.twister.mt);
    Drawn { word: d.word, next }
}

impl Source for Random {
    ghost drawn = { rand_of };

    ghost drawn64 = { u64_of };

    fn next_u32(self) -> Drawn<u32, Random> {
        rand(self)
    }

    fn next_u64(self) -> Drawn<u64, Random> {
        u64(self)
    }
}
