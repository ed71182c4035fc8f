// A loop over a lent generator: its state is read once and written once, and in between its small words are handed on and its table is
// lent. What the calls in place cost beside them is so told apart from what the library's calls cost.
ghost use Rattle.std.specs.Prelude.{◌≡◌};
ghost use Rattle.random.specs.Lent.{joined_with};
ghost use Rattle.bench_lent.specs.Promises.{BenchDrawsInPromise};
ghost use Rattle.bench_lent.specs.Rows.{draws_row, lent_total};

use lent_state::{held_in, write};
use random::Engine;
use words::{Given, refusal};

// The sums of values and of words used, modulo 2^64. Refused, they are 0.
#[repr(C)]
#[derive(Clone, Copy)]
pub struct Sums {
    pub sum: u64,
    pub used: u64,
    pub refusal: u32,
}

// What draws come to: the sums, and the generator after them, by value or as an engine.
#[derive(Clone, Copy)]
pub struct Total<G> {
    pub next: G,
    pub sum: u64,
    pub used: u64,
}

// n draws below r in a row. A refused draw adds nothing, and the next one begins where it did.
fn draws_row(e: Engine, mt: &mut [u32; 624], r: u32, budget: u32, n: u64) -> Total<Engine>
    ensures { lent_total result mt.new ≡ draws_row r budget n (joined_with e mt.old) }
{
    let mut next = e;
    let mut sum: u64 = 0;
    let mut used: u64 = 0;
    for _i in 0..n {
        let a = bounded::bounded_in(next, mt, r, budget);
        let (value, words) = match a.told {
            Ok(Given { value, used }) => (value, used),
            Err(_) => (0, 0),
        };
        sum = sum.wrapping_add(value as u64);
        used = used.wrapping_add(words as u64);
        next = a.next;
    }
    Total { next, sum, used }
}

// n draws below r in a row, each within the budget.
pub fn bench_draws_in(
    state: &mut [u64; 6],
    table: &mut [u32; 624],
    r: u32,
    budget: u32,
    n: u64,
) -> Sums
    ensures { BenchDrawsInPromise state.old table.old r budget n result state.new table.new }
{
    if state[0] > 3 {
        return Sums {
            sum: 0,
            used: 0,
            refusal: refusal::KIND,
        };
    }
    let held = held_in(state);
    let s = draws_row(held.engine, table, r, budget, n);
    write(s.next, state);
    Sums {
        sum: s.sum,
        used: s.used,
        refusal: refusal::ANSWERED,
    }
}
