// A draw below a bound. The table changes only where the twister renews it, once in 624 words: so the first word, where it is ready and
// good, settles nearly every draw and writes nothing. Otherwise the loop runs, for the twister on a copy that is written back on success.
ghost use Rattle.std.specs.Prelude.{◌<◌};
ghost use Rattle.bounded.specs.Answers.{Below, in_numbers};
ghost use Rattle.bounded.specs.Promises.{BoundedInPromise, BoundedPromise};

use crate::answers::by_value;
use crate::draw::draw_in;
use random::{Engine, Random};
use words::{Refusal, Reply};

// The draw by the loop, on a copy of the table.
fn settle_on_copy(e: Engine, mt: &mut [u32; 624], r: u32, budget: u32) -> Reply<u32, Engine>
    requires { 0 < r }
    ensures answer { BoundedInPromise e mt.old r budget (in_numbers result) mt.new }
    ensures small { Below r (in_numbers result) }
{
    let mut copy = *mt;
    let t = draw_in(e, &mut copy, r, budget);
    let Some(value) = t.value else {
        return Reply::refuses(Refusal::Budget, e);
    };
    *mt = copy;
    Reply::gives(value, t.used, t.next)
}

// The draw by the loop.
fn settle(e: Engine, mt: &mut [u32; 624], r: u32, budget: u32) -> Reply<u32, Engine>
    ensures answer { BoundedInPromise e mt.old r budget (in_numbers result) mt.new }
    ensures small { Below r (in_numbers result) }
{
    if r == 0 {
        return Reply::refuses(Refusal::ZeroRange, e);
    }
    if random::on_table(e.backend) {
        return settle_on_copy(e, mt, r, budget);
    }
    let t = draw_in(e, mt, r, budget);
    match t.value {
        Some(value) => Reply::gives(value, t.used, t.next),
        None => Reply::refuses(Refusal::Budget, e),
    }
}

// A number below r. Where it is refused the table is as it came.
pub fn bounded_in(e: Engine, mt: &mut [u32; 624], r: u32, budget: u32) -> Reply<u32, Engine>
    ensures answer { BoundedInPromise e mt.old r budget (in_numbers result) mt.new }
    ensures small { Below r (in_numbers result) }
{
    if budget > 0 {
        if random::surely_ready(e) {
            let w = random::next_ready(e, mt);
            if words::is_good(w.word, r) {
                return Reply::gives(words::quotient(w.word, r), 1, w.next);
            }
            return settle(e, mt, r, budget);
        }
    }
    settle(e, mt, r, budget)
}

// A number below r.
pub fn bounded(g: Random, r: u32, budget: u32) -> Reply<u32, Random>
    ensures { BoundedPromise g r budget (in_numbers result) }
{
    let mut moved = g;
    let a = bounded_in(random::engine_of(g), &mut moved.twister.mt, r, budget);
    by_value(a, moved.twister.mt)
}
