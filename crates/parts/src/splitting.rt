// `split`: two generators of one of kind 0, over a lent table and by value.
ghost use Rattle.std.specs.Prelude.{◌≡◌};
ghost use Rattle.parts.specs.Splitting.{refused_split, split_in_numbers};
ghost use Rattle.parts.specs.Promises.{SplitInPromise, SplitPromise};

use random::{Backend, Engine, Random, engine_of, engine_with, with_table};
use words::Refusal;
use xoshiro::Xoshiro256PlusPlus;

// Two generators of one, by value or as engines; refused, the parent is as it came, and the child is of four zero words.
#[derive(Clone, Copy)]
pub struct Divided<G> {
    pub refusal: Option<Refusal>,
    pub parent: G,
    pub child: G,
}

// Kind 0: the child has the old state, and the parent jumps. The other kinds are refused with 9, with the child of four zero words.
#[tactic(auto, unfolding(crate::specs::Splitting::engine_split))]
pub fn split_in(e: Engine) -> Divided<Engine>
    ensures { SplitInPromise e (split_in_numbers result) }
{
    match e.backend {
        Backend::Xoshiro256PlusPlus(x) => {
            let backend = Backend::Xoshiro256PlusPlus(x.jump());
            let parent = Engine { backend, ..e };
            Divided {
                refusal: None,
                parent,
                child: e,
            }
        }
        _ => no_split(e),
    }
}

// Refusal 9: the parent as it came, and a child of four zero words.
fn no_split(e: Engine) -> Divided<Engine>
    ensures { split_in_numbers result ≡ refused_split e }
{
    let zero = Xoshiro256PlusPlus::from_parts(0, 0, 0, 0);
    let child = engine_with(Backend::Xoshiro256PlusPlus(zero), 0);
    Divided {
        refusal: Some(Refusal::NoSplit),
        parent: e,
        child,
    }
}

// `split_in` by value.
pub fn split(g: Random) -> Divided<Random>
    ensures { SplitPromise g (split_in_numbers result) }
{
    let s = split_in(engine_of(g));
    match s.refusal {
        None => Divided {
            refusal: None,
            parent: with_table(s.parent, g.twister.mt),
            child: g,
        },
        Some(refusal) => Divided {
            refusal: Some(refusal),
            parent: g,
            child: making::zeros(),
        },
    }
}
