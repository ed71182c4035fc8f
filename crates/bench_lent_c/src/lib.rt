// For a driver in Rust: the loop of `bench_lent`, exported. A crate is a library or an archive, and `bench_values` stands on that library.
#![tactic(auto)]

ghost use Rattle.bench_lent.specs.Promises.{BenchDrawsInPromise};

use bench_lent::Sums;

// n draws below r in a row, each within the budget.
#[unsafe(no_mangle)]
pub extern "C" fn bench_draws_in(
    state: &mut [u64; 6],
    table: &mut [u32; 624],
    r: u32,
    budget: u32,
    n: u64,
) -> Sums
    ensures { BenchDrawsInPromise state.old table.old r budget n result state.new table.new }
{
    bench_lent::bench_draws_in(state, table, r, budget, n)
}
