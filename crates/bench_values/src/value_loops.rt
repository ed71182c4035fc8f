// Rows by the library's calls by value: each takes the whole generator and hands it back, so that the table is copied in and out.
ghost use Rattle.std.specs.Prelude.{◌≡◌};
ghost use Rattle.bench_lent.specs.Rows.{draws_row};
ghost use Rattle.bench_values.specs.Promises.{BenchWordsByValuePromise, BenchDrawsByValuePromise};
ghost use Rattle.bench_values.specs.Rows.{words_row};

use bench_lent::{Sums, Total};
use lent_state::{held_in, write};
use random::{Random, engine_of, with_table};
use source::Drawn;
use words::refusal;

// The XOR of words. Refused, it is 0.
#[repr(C)]
#[derive(Clone, Copy)]
pub struct Xored {
    pub value: u64,
    pub refusal: u32,
}

// The XOR of the next n words, and the generator after them.
fn words_by_value(g: Random, n: u64) -> Drawn<u32, Random>
    ensures { result ≡ words_row n g }
{
    let mut next = g;
    let mut word: u32 = 0;
    for _i in 0..n {
        let d = random::rand(next);
        word ^= d.word;
        next = d.next;
    }
    Drawn { word, next }
}

// The XOR of the next n words of 32 bits.
#[unsafe(no_mangle)]
pub extern "C" fn bench_words_by_value(
    state: &mut [u64; 6],
    table: &mut [u32; 624],
    n: u64,
) -> Xored
    ensures { BenchWordsByValuePromise state.old table.old n result state.new table.new }
{
    if state[0] > 3 {
        return Xored {
            value: 0,
            refusal: refusal::KIND,
        };
    }
    let held = held_in(state);
    let d = words_by_value(with_table(held.engine, *table), n);
    let mt = d.next.twister.mt;
    *table = mt;
    write(engine_of(d.next), state);
    Xored {
        value: d.word as u64,
        refusal: refusal::ANSWERED,
    }
}

// n draws below r in a row. A refused draw adds nothing, and the next one begins where it did.
fn draws_by_value(g: Random, r: u32, budget: u32, n: u64) -> Total<Random>
    ensures { result ≡ draws_row r budget n g }
{
    let mut next = g;
    let mut sum: u64 = 0;
    let mut used: u64 = 0;
    for _i in 0..n {
        let a = bounded::bounded(next, r, budget);
        let o = words::numbered(a.told);
        sum = sum.wrapping_add(o.value as u64);
        used = used.wrapping_add(o.used as u64);
        next = a.next;
    }
    Total { next, sum, used }
}

// n draws below r in a row, each within the budget.
#[unsafe(no_mangle)]
pub extern "C" fn bench_draws_by_value(
    state: &mut [u64; 6],
    table: &mut [u32; 624],
    r: u32,
    budget: u32,
    n: u64,
) -> Sums
    ensures { BenchDrawsByValuePromise state.old table.old r budget n result
        state.new table.new }
{
    if state[0] > 3 {
        return Sums {
            sum: 0,
            used: 0,
            refusal: refusal::KIND,
        };
    }
    let held = held_in(state);
    let s = draws_by_value(with_table(held.engine, *table), r, budget, n);
    let mt = s.next.twister.mt;
    *table = mt;
    write(engine_of(s.next), state);
    Sums {
        sum: s.sum,
        used: s.used,
        refusal: refusal::ANSWERED,
    }
}
