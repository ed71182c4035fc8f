// A generator that was made, in the caller's state and table. The table is the twister's alone: every other kind leaves it as it came.
ghost use Rattle.lent_state.specs.Promises.{LentPlacePromise};

use crate::writing::begin;
use random::{Random, engine_of};
use words::refusal;

// The state is made anew, and of kind 1 the table is written too. Where the making was refused nothing changes. The answer is the refusal.
pub fn place(refused: u32, g: Random, state: &mut [u64; 6], table: &mut [u32; 624]) -> u32
    ensures { LentPlacePromise refused g state.old table.old result state.new table.new }
{
    if refused != refusal::ANSWERED {
        return refused;
    }
    begin(engine_of(g), state);
    if random::on_table(g.backend) {
        let mt = g.twister.mt;
        *table = mt;
    }
    refused
}
