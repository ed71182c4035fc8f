// The generator's state: seeded anew, split, the twister's position and twist, and equality of two generators.
ghost use Rattle.vrd_ffi.specs.Promises.{VrdSeedPromise, VrdTwistPromise, VrdSetMtiPromise, VrdMtiPromise, VrdSplitPromise};
ghost use Rattle.vrd_ffi.specs.Promises.{VrdSamePromise};

use crate::answers::{Equality, Word};
use crate::state::engine_in;
use lent_state::{begin, write};
use words::refusal;

// The kind is kept, and its state set anew. The answer is the refusal.
#[unsafe(no_mangle)]
pub extern "C" fn vrd_seed_in(state: &mut [u64; 6], table: &mut [u32; 624], seed: u32) -> u32
    ensures { VrdSeedPromise state.old table.old seed result state.new table.new }
{
    if state[0] > 3 {
        return refusal::KIND;
    }
    let e = making::seed_in(engine_in(state), table, seed);
    write(e, state);
    refusal::ANSWERED
}

// The twist; nothing for the other kinds. The answer is the refusal.
#[unsafe(no_mangle)]
pub extern "C" fn vrd_twist_in(state: &mut [u64; 6], table: &mut [u32; 624]) -> u32
    ensures { VrdTwistPromise state.old table.old result state.new table.new }
{
    if state[0] > 3 {
        return refusal::KIND;
    }
    let e = parts::twist_in(engine_in(state), table);
    write(e, state);
    refusal::ANSWERED
}

// The twister's position set; nothing for the other kinds. The answer is the refusal.
#[unsafe(no_mangle)]
pub extern "C" fn vrd_set_mti_in(state: &mut [u64; 6], value: u32) -> u32
    ensures { VrdSetMtiPromise state.old value result state.new }
{
    if state[0] > 3 {
        return refusal::KIND;
    }
    let e = parts::set_mti_in(engine_in(state), value);
    write(e, state);
    refusal::ANSWERED
}

// The twister's position; 0 for the other kinds.
#[unsafe(no_mangle)]
pub extern "C" fn vrd_mti_in(state: &[u64; 6]) -> Word
    ensures { VrdMtiPromise state.now result }
{
    if state[0] > 3 {
        return Word {
            value: 0,
            refusal: refusal::KIND,
        };
    }
    let mti = parts::mti_in(engine_in(state));
    Word {
        value: mti as u64,
        refusal: refusal::ANSWERED,
    }
}

// Two generators of one of kind 0. The answer is the refusal: 10, then 9. Answered, the child is written to a state of its own.
#[unsafe(no_mangle)]
pub extern "C" fn vrd_split_in(state: &mut [u64; 6], child: &mut [u64; 6]) -> u32
    ensures { VrdSplitPromise state.old child.old result state.new child.new }
{
    if state[0] > 3 {
        return refusal::KIND;
    }
    let d = parts::split_in(engine_in(state));
    if let Some(refusal) = d.refusal {
        return refusal.number();
    }
    write(d.parent, state);
    begin(d.child, child);
    refusal::ANSWERED
}

// Whether two generators are equal; refused where either kind is above 3, and then they are not.
#[unsafe(no_mangle)]
pub extern "C" fn vrd_same_in(
    state: &[u64; 6],
    table: &[u32; 624],
    other: &[u64; 6],
    other_table: &[u32; 624],
) -> Equality
    ensures { VrdSamePromise state.now table.now other.now other_table.now result }
{
    if state[0] > 3 {
        return Equality {
            refusal: refusal::KIND,
            equal: false,
        };
    }
    if other[0] > 3 {
        return Equality {
            refusal: refusal::KIND,
            equal: false,
        };
    }
    let equal = parts::same_in(engine_in(state), table, engine_in(other), other_table);
    Equality {
        refusal: refusal::ANSWERED,
        equal,
    }
}
