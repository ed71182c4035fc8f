// Draws made without their effect: each word is looked at as it comes, and the kind is asked for once, before the loop, so that the next
// word is worked out meanwhile.
ghost use Rattle.rehearsal.specs.Kinds.{SourceTold, TwisterTold};
ghost use Rattle.rehearsal.specs.Promises.{RehearsePromise, RehearseTablePromise};

use crate::settling::bound_after;
use crate::turns::Draws;
use random::{Backend, Engine};
use source::Source;

// The words that all draws use, where the budget settles them all, and how many of them it settles.
#[derive(Clone, Copy, Debug, PartialEq, Eq)]
pub struct Rehearsed {
    pub used: Option<u32>,
    pub settled: u32,
}

// The draws from a generator by value. A `while`: the loop ends on what is settled, and the words are counted beside it.
fn source_run<S: Source>(g: S, d: Draws) -> Rehearsed
    ensures { SourceTold S.drawn g d result }
{
    let mut next = g;
    let mut used: u32 = 0;
    let mut settled: u32 = 0;
    let mut bound = d.first;
    while settled < d.count {
        if d.budget <= used {
            return Rehearsed {
                used: None,
                settled,
            };
        }
        let w = next.next_u32();
        if words::is_good(w.word, bound) {
            settled += 1;
            bound = bound_after(bound, d.falls, 1);
        }
        next = w.next;
        used += 1;
    }
    Rehearsed {
        used: Some(used),
        settled,
    }
}

// The draws on the twister's table itself, which they move: a loop of its own, since a source is handed on by value at each word.
fn twister_run(mt: &mut [u32; 624], mti: u32, d: Draws) -> Rehearsed
    ensures { TwisterTold mt.old mti d result }
{
    let mut at = mti;
    let mut used: u32 = 0;
    let mut settled: u32 = 0;
    let mut bound = d.first;
    while settled < d.count {
        if d.budget <= used {
            return Rehearsed {
                used: None,
                settled,
            };
        }
        let s = mersenne_twister::rand_in(mt, at);
        if words::is_good(s.word, bound) {
            settled += 1;
            bound = bound_after(bound, d.falls, 1);
        }
        at = s.mti;
        used += 1;
    }
    Rehearsed {
        used: Some(used),
        settled,
    }
}

// What these draws come to. The table is as it came.
pub fn rehearse(d: Draws, e: Engine, mt: &mut [u32; 624]) -> Rehearsed
    ensures told { RehearsePromise d e mt.old result }
    ensures table { RehearseTablePromise mt.old mt.new }
{
    let mti = e.mti;
    let backend = e.backend;
    match backend {
        Backend::Xoshiro256PlusPlus(x) => source_run(x, d),
        Backend::MersenneTwister => {
            let mut copy = *mt;
            twister_run(&mut copy, mti, d)
        }
        Backend::Pcg32(p) => source_run(p, d),
        Backend::Pcg64(p) => source_run(p, d),
    }
}
