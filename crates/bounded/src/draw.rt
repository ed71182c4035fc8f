// The loop of a draw: one word after the other, until one is good or the budget ends.
ghost use Rattle.std.specs.Prelude.{◌<◌, IfSome};
ghost use Rattle.random.specs.Lent.{joined_with};
ghost use Rattle.bounded.specs.Trying.{TriedFrom};

use random::Engine;

// The engine after the words taken, the value where one of them settled the draw, and how many were taken.
#[derive(Clone, Copy)]
pub(crate) struct Tried {
    pub(crate) next: Engine,
    pub(crate) value: Option<u32>,
    pub(crate) used: u32,
}

// A draw below r. It takes the words up to the good one; where none is good the whole budget, and none where r is 0.
pub(crate) fn draw_in(e: Engine, mt: &mut [u32; 624], r: u32, budget: u32) -> Tried
    ensures draw { TriedFrom (joined_with e mt.old) r budget result (joined_with result.next mt.new) }
    ensures small { IfSome result.value (λ v. v < r) }
{
    let mut next = e;
    if r == 0 {
        return Tried {
            next,
            value: None,
            used: 0,
        };
    }
    for used in 0..budget {
        let w = random::next_u32(next, mt);
        next = w.next;
        if words::is_good(w.word, r) {
            let value = words::quotient(w.word, r);
            return Tried {
                next,
                value: Some(value),
                used: used + 1,
            };
        }
    }
    Tried {
        next,
        value: None,
        used: budget,
    }
}
