// `bool`: one double is drawn, also at p = 0 and 1, and asked whether it is below p.
ghost use Rattle.std.specs.Prelude.{◌≡◌};
ghost use Rattle.random.specs.Generator.{steps64};
ghost use Rattle.float_draws.specs.Coins.{flip};
ghost use Rattle.float_draws.specs.Promises.{BoolInPromise, BoolPromise};

use random::{Backend, Engine, Random, engine_of, with_table};
use words::{Refusal, Reply};

// How many words a 64-bit word takes.
fn steps(backend: Backend) -> u32
    ensures { result ≡ steps64 backend }
{
    if random::width(backend) == 8 { 1 } else { 2 }
}

// Whether the double of the next 64-bit word is below p; where p is no chance, nothing is drawn.
pub fn bool_in(e: Engine, mt: &mut [u32; 624], p: f64) -> Reply<bool, Engine>
    ensures { BoolInPromise e mt.old p (flip result) mt.new }
{
    if floats::is_chance(p) {
        let used = steps(e.backend);
        let d = random::next_u64(e, mt);
        return match floats::chance(p, d.word) {
            Ok(value) => Reply::gives(value, used, d.next),
            Err(refusal) => Reply::refuses(refusal, d.next),
        };
    }
    Reply::refuses(Refusal::Chance, e)
}

// The same by value.
pub fn bool(g: Random, p: f64) -> Reply<bool, Random>
    ensures { BoolPromise g p (flip result) }
{
    let mut moved = g;
    let a = bool_in(engine_of(g), &mut moved.twister.mt, p);
    Reply {
        next: with_table(a.next, moved.twister.mt),
        told: a.told,
    }
}
