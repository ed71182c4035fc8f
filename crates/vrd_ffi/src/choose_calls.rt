// An entry of a list of the caller's, chosen; and how long a list may be.
ghost use Rattle.std.specs.Prelude.{length, get_or, ◌≡◌, ◌<◌};
ghost use Rattle.vrd_ffi.specs.Choosing.{choice_told, entry_of, Within};
ghost use Rattle.vrd_ffi.specs.Promises.{VrdChoosePromise, VrdListLimitPromise};

use crate::answers::{Choice, Number, choice_apart};
use crate::drawing::{at_once, by_library, number_of};
use crate::first_word::{MISS, below_within, quick_first, quick_pcg};
use crate::state::engine_in;
use lent_state::settle;
use lists::Entry;
use words::{Given, Refusal, refusal};

// The most entries that a list may have.
#[unsafe(no_mangle)]
pub extern "C" fn vrd_list_limit() -> u64
    ensures { VrdListLimitPromise result }
{
    lists::limit::LIST_LIMIT as u64
}

// What the library's call tells, as it is handed out.
fn choice_told(told: Result<Given<Entry>, Refusal>) -> Choice
    ensures { result ≡ choice_told told }
{
    match told {
        Ok(given) => Choice {
            place: given.value.place,
            value: given.value.value as u64,
            used: given.used,
            refusal: refusal::ANSWERED,
        },
        Err(refusal) => Choice {
            place: 0,
            value: 0,
            used: 0,
            refusal: refusal.number(),
        },
    }
}

// The call by the library: a list that it refuses.
fn choose_by_library(
    state: &mut [u64; 6],
    table: &mut [u32; 624],
    list: &[u32],
    budget: u32,
) -> Choice
    ensures { VrdChoosePromise state.old table.old list.now budget result
        state.new table.new }
{
    if state[0] > 3 {
        return Choice {
            place: 0,
            value: 0,
            used: 0,
            refusal: refusal::KIND,
        };
    }
    let a = lists::choose_in(engine_in(state), table, list, budget);
    let c = choice_told(a.told);
    settle(c.refusal, a.next, state);
    c
}

// The entry at a place of the list.
fn entry_at(list: &[u32], place: usize) -> u32
    requires { place < length list.now }
    ensures { result ≡ get_or list.now place 0 }
{
    list[place]
}

// The place that was drawn, and the entry there.
fn chosen(list: &[u32], a: Number) -> Choice
    requires { Within list.now a }
    ensures { result ≡ entry_of list.now a }
{
    let place = a.value as usize;
    if a.refusal == refusal::ANSWERED {
        return Choice {
            place,
            value: entry_at(list, place) as u64,
            used: a.used,
            refusal: refusal::ANSWERED,
        };
    }
    Choice {
        place,
        value: 0,
        used: a.used,
        refusal: a.refusal,
    }
}

// An entry of the list, and its place. What one word settled is told apart, so that the common answer has constants in it.
#[unsafe(no_mangle)]
pub extern "C" fn vrd_choose_in(
    state: &mut [u64; 6],
    table: &mut [u32; 624],
    list: &[u32],
    budget: u32,
) -> Choice
    ensures { VrdChoosePromise state.old table.old list.now budget result
        state.new table.new }
{
    let n = list.len();
    if n == 0 {
        return choice_apart(choose_by_library(state, table, list, budget));
    }
    if n > lists::limit::LIST_LIMIT {
        return choice_apart(choose_by_library(state, table, list, budget));
    }
    let r = n as u32;
    let tried = below_within(r, budget);
    let first = quick_first(state, table, tried);
    if first < MISS {
        return chosen(list, at_once(first));
    }
    let second = quick_pcg(state, tried);
    if second < MISS {
        return chosen(list, at_once(second));
    }
    chosen(list, number_of(by_library(state, table, r, budget, 0)))
}
