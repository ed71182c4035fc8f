// The next words of a generator, one for each entry of a list, over a lent table. The kind is asked for once, before the loop.
#![tactic(auto)]

ghost use Rattle.ahead.specs.Ahead.{SourcePut, TwisterPut};
ghost use Rattle.ahead.specs.Promises.{WordsInPromise};
ghost use Rattle.std.specs.Prelude.{length};

use random::{Backend, Engine};
use source::Source;

// The next words of a generator by value.
fn source_words<S: Source>(g: S, list: &mut [u32]) -> S
    ensures { SourcePut S.drawn g (length list.old) list.old list.new result }
{
    let mut next = g;
    for slot in list.iter_mut() {
        let d = next.next_u32();
        *slot = d.word;
        next = d.next;
    }
    next
}

// The same of the twister, whose table is lent: a loop of its own, since a source is handed on by value at each word.
fn twister_words(mt: &mut [u32; 624], mti: u32, list: &mut [u32]) -> u32
    ensures { TwisterPut mt.old mti (length list.old) list.old list.new
        mt.new result }
{
    let mut at = mti;
    for slot in list.iter_mut() {
        let s = mersenne_twister::rand_in(mt, at);
        *slot = s.word;
        at = s.mti;
    }
    at
}

// The next words in the list, one for each entry, and the engine after them.
pub fn words_in(e: Engine, mt: &mut [u32; 624], list: &mut [u32]) -> Engine
    ensures { WordsInPromise e mt.old list.old result mt.new list.new }
{
    match e.backend {
        Backend::Xoshiro256PlusPlus(x) => {
            let backend = Backend::Xoshiro256PlusPlus(source_words(x, list));
            Engine { backend, ..e }
        }
        Backend::MersenneTwister => {
            let mti = twister_words(mt, e.mti, list);
            Engine { mti, ..e }
        }
        Backend::Pcg32(p) => {
            let backend = Backend::Pcg32(source_words(p, list));
            Engine { backend, ..e }
        }
        Backend::Pcg64(p) => {
            let backend = Backend::Pcg64(source_words(p, list));
            Engine { backend, ..e }
        }
    }
}
