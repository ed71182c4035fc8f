// All of a generator but the table, and what is handed back with it.
ghost use Rattle.std.specs.Prelude.{◌≡◌};
ghost use Rattle.random.specs.Lent.{answer_of};
ghost use Rattle.random.specs.Promises.{EngineWithPromise};

use crate::backend::Backend;
use source::Drawn;

// All of a generator but the table. It has no `==`: kinds other than the twister leave the position unused.
#[derive(Clone, Copy, Debug)]
pub struct Engine {
    pub backend: Backend,
    pub mti: u32,
}

// An engine of a backend and a position.
pub fn engine_with(backend: Backend, mti: u32) -> Engine
    ensures { EngineWithPromise backend mti result }
{
    Engine { backend, mti }
}

// A word with the engine after it, put together.
pub(crate) fn answer<W: Copy>(word: W, backend: Backend, mti: u32) -> Drawn<W, Engine>
    ensures { result ≡ answer_of word backend mti }
{
    Drawn {
        word,
        next: Engine { backend, mti },
    }
}
