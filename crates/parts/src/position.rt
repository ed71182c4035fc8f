// The twister's position and twist, over a lent table and by value. On the other kinds they give 0, nothing and nothing.
ghost use Rattle.parts.specs.Promises.{MtiInPromise, SetMtiInPromise, PartsTwistInPromise, MtiPromise, SetMtiPromise, TwistPromise};

use random::{Backend, Engine, Random, engine_of, with_table};

// The twister's position; 0 for the other kinds.
pub fn mti_in(e: Engine) -> u32
    ensures { MtiInPromise e result }
{
    match e.backend {
        Backend::MersenneTwister => e.mti,
        _ => 0,
    }
}

// The twister's position set, at most 624; nothing for the other kinds.
pub fn set_mti_in(e: Engine, value: u32) -> Engine
    ensures { SetMtiInPromise e value result }
{
    match e.backend {
        Backend::MersenneTwister => Engine {
            mti: mersenne_twister::stored_position(value),
            ..e
        },
        _ => e,
    }
}

// The twist; nothing for the other kinds.
#[tactic(auto, unfolding(crate::specs::Position::twisted))]
pub fn twist_in(e: Engine, mt: &mut [u32; 624]) -> Engine
    ensures { PartsTwistInPromise e mt.old result mt.new }
{
    match e.backend {
        Backend::MersenneTwister => Engine {
            mti: mersenne_twister::twist_in(mt),
            ..e
        },
        _ => e,
    }
}

// `mti_in` by value.
pub fn mti(g: Random) -> u32
    ensures { MtiPromise g result }
{
    mti_in(engine_of(g))
}

// `set_mti_in` by value.
pub fn set_mti(g: Random, value: u32) -> Random
    ensures { SetMtiPromise g value result }
{
    let e = set_mti_in(engine_of(g), value);
    let mt = g.twister.mt;
    with_table(e, mt)
}

// `twist_in` by value.
pub fn twist(g: Random) -> Random
    ensures { TwistPromise g result }
{
    let mut moved = g;
    let e = twist_in(engine_of(g), &mut moved.twister.mt);
    let mt = moved.twister.mt;
    with_table(e, mt)
}
