// Equality of generators: by kind and that kind's own parts. What a kind does not use is not looked at.
ghost use Rattle.std.specs.Prelude.{◌≡◌};
ghost use Rattle.parts.specs.Decides.{Decides};
ghost use Rattle.parts.specs.OwnParts.{table_part};
ghost use Rattle.parts.specs.Promises.{SameWordsPromise, SameInPromise, SamePromise};

use crate::position::mti_in;
use random::{Backend, Engine, Random, engine_of};

// Whether two lists hold the same words.
pub fn same_words(a: &[u32], b: &[u32]) -> bool
    ensures { SameWordsPromise a.now b.now result }
{
    a == b
}

// Whether two tables are the same to a backend: the twister's are compared, and no other kind has one.
#[tactic(auto, using(crate::specs::OwnPartsLaws::table_off, crate::specs::Decides::decides_yes))]
fn same_tables(backend: Backend, mt: &[u32; 624], other: &[u32; 624]) -> bool
    ensures { Decides result (table_part backend mt.now ≡ table_part backend other.now) }
{
    if !random::on_table(backend) {
        return true;
    }
    same_words(mt, other)
}

// Whether the generators of two engines and their tables are equal.
pub fn same_in(a: Engine, mt: &[u32; 624], b: Engine, other: &[u32; 624]) -> bool
    ensures { SameInPromise a mt.now b other.now result }
{
    if a.backend != b.backend {
        return false;
    }
    if mti_in(a) != mti_in(b) {
        return false;
    }
    same_tables(a.backend, mt, other)
}

// Whether two generators are equal.
pub fn same(a: Random, b: Random) -> bool
    ensures { SamePromise a b result }
{
    same_in(engine_of(a), &a.twister.mt, engine_of(b), &b.twister.mt)
}
