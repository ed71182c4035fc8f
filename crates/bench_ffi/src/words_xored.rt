// The loops of words: the XOR of the next n of a generator, and the generator after them.
ghost use Rattle.std.specs.Prelude.{◌≡◌};
ghost use Rattle.bench_ffi.specs.Loops.{words_of};

use source::{Drawn, Source};

// Words of 32 bits.
#[tactic(auto, unfolding(crate::specs::Steps::after, crate::specs::Steps::xor_of))]
pub(crate) fn xored32<S: Source>(g: S, n: u64) -> Drawn<u32, S>
    ensures { result ≡ words_of S.drawn n g }
{
    let mut next = g;
    let mut word: u32 = 0;
    for _i in 0..n {
        let d = next.next_u32();
        word ^= d.word;
        next = d.next;
    }
    Drawn { word, next }
}

// Words of 64 bits.
#[tactic(auto, unfolding(crate::specs::Steps::after, crate::specs::Steps::xor_of))]
pub(crate) fn xored64<S: Source>(g: S, n: u64) -> Drawn<u64, S>
    ensures { result ≡ words_of S.drawn64 n g }
{
    let mut next = g;
    let mut word: u64 = 0;
    for _i in 0..n {
        let d = next.next_u64();
        word ^= d.word;
        next = d.next;
    }
    Drawn { word, next }
}
