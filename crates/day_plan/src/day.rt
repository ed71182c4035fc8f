// The plan of a day. What its shuffle comes to is known before a slot is touched: so a refusal leaves the day as it came.
ghost use Rattle.shuffle.specs.Replies.{done_in_numbers};
ghost use Rattle.day_plan.specs.Promises.{PlanDayInPromise, PlanDayPromise};

use crate::layout::lay_out;
use random::{Engine, Random};
use words::Reply;

// So many blanks and each inlet once, in an order drawn at random: 0 is a blank, and 1, 2, .. the inlets. Where it is refused, day and
// table are as they came.
pub fn plan_day_in(
    e: Engine,
    mt: &mut [u32; 624],
    day: &mut [u32],
    blanks: usize,
    budget: u32,
) -> Reply<(), Engine>
    ensures { PlanDayInPromise e mt.old day.old blanks budget (done_in_numbers result) mt.new day.new }
{
    match shuffle::outcome_in(e, mt, day.len(), budget) {
        Ok(given) => {
            lay_out(day, blanks);
            Reply::gives((), given.used, shuffle::perform_in(e, mt, day, budget))
        }
        Err(refusal) => Reply::refuses(refusal, e),
    }
}

// The same by value. Where it is refused the day is as it came.
pub fn plan_day(g: Random, day: &mut [u32], blanks: usize, budget: u32) -> Reply<(), Random>
    ensures { PlanDayPromise g day.old blanks budget (done_in_numbers result) day.new }
{
    let mut moved = g;
    let a = plan_day_in(
        random::engine_of(g),
        &mut moved.twister.mt,
        day,
        blanks,
        budget,
    );
    bounded::by_value(a, moved.twister.mt)
}
