// A generator's kind and its small words, read out. The twister's table and position stand beside them.
ghost use Rattle.parts.specs.Promises.{KindPromise, SmallWordsPromise};

use random::Backend;

// The small words of a kind: xoshiro's state; Pcg32's state and increment; Pcg64's, high word first. The rest are zeros.
#[repr(C)]
#[derive(Clone, Copy)]
pub struct Small {
    pub w0: u64,
    pub w1: u64,
    pub w2: u64,
    pub w3: u64,
}

// The kind's number, 0 to 3.
pub fn kind(backend: Backend) -> u32
    ensures { KindPromise backend result }
{
    backend.kind().number()
}

// The small words of its kind.
pub fn small_words(backend: Backend) -> Small
    ensures { SmallWordsPromise backend result }
{
    match backend {
        Backend::Xoshiro256PlusPlus(x) => Small {
            w0: x.s0,
            w1: x.s1,
            w2: x.s2,
            w3: x.s3,
        },
        Backend::MersenneTwister => Small {
            w0: 0,
            w1: 0,
            w2: 0,
            w3: 0,
        },
        Backend::Pcg32(p) => Small {
            w0: p.state,
            w1: p.inc,
            w2: 0,
            w3: 0,
        },
        Backend::Pcg64(p) => Small {
            w0: p.state.high,
            w1: p.state.low,
            w2: p.inc.high,
            w3: p.inc.low,
        },
    }
}
