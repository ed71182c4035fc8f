// Where a part of a list of the caller's starts.
ghost use Rattle.std.specs.Prelude.{◌≡◌};
ghost use Rattle.vrd_ffi.specs.Handed.{start_told};
ghost use Rattle.vrd_ffi.specs.Promises.{VrdRandSlicePromise};

use crate::answers::{Number, number_apart};
use crate::drawing::{at_once, by_library, number_of};
use crate::first_word::{MISS, below_within, quick_first, quick_pcg};
use crate::state::engine_in;
use lent_state::settle;
use words::{Given, Refusal, refusal};

// What the library's call tells, as it is handed out.
fn start_told(told: Result<Given<usize>, Refusal>) -> Number
    ensures { result ≡ start_told told }
{
    match told {
        Ok(given) => Number {
            value: given.value as u64,
            used: given.used,
            refusal: refusal::ANSWERED,
        },
        Err(refusal) => Number {
            value: 0,
            used: 0,
            refusal: refusal.number(),
        },
    }
}

// The call by the library: a list or a window that it refuses.
fn rand_slice_by_library(
    state: &mut [u64; 6],
    table: &mut [u32; 624],
    list: &[u32],
    window: usize,
    budget: u32,
) -> Number
    ensures { VrdRandSlicePromise state.old table.old list.now window budget result
        state.new table.new }
{
    if state[0] > 3 {
        return Number {
            value: 0,
            used: 0,
            refusal: refusal::KIND,
        };
    }
    let a = lists::rand_slice_in(engine_in(state), table, list, window, budget);
    let n = start_told(a.told);
    settle(n.refusal, a.next, state);
    n
}

// Where a part of the list starts that is window long.
#[unsafe(no_mangle)]
pub extern "C" fn vrd_rand_slice_in(
    state: &mut [u64; 6],
    table: &mut [u32; 624],
    list: &[u32],
    window: usize,
    budget: u32,
) -> Number
    ensures { VrdRandSlicePromise state.old table.old list.now window budget result
        state.new table.new }
{
    let n = list.len();
    if n > lists::limit::LIST_LIMIT {
        return number_apart(rand_slice_by_library(state, table, list, window, budget));
    }
    if window == 0 {
        return number_apart(rand_slice_by_library(state, table, list, window, budget));
    }
    if window > n {
        return number_apart(rand_slice_by_library(state, table, list, window, budget));
    }
    let r = (n - window + 1) as u32;
    let tried = below_within(r, budget);
    let first = quick_first(state, table, tried);
    if first < MISS {
        return at_once(first);
    }
    let second = quick_pcg(state, tried);
    if second < MISS {
        return at_once(second);
    }
    number_of(by_library(state, table, r, budget, 0))
}
