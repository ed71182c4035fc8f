// The engine of a lent state, for calls that have looked at its kind.
ghost use Rattle.std.specs.Prelude.{◌≡◌};
ghost use Rattle.lent_state.specs.State.{engine_from};

use lent_state::held_in;
use random::Engine;

// The engine of a state whose kind is known.
pub(crate) fn engine_in(state: &[u64; 6]) -> Engine
    ensures { result ≡ engine_from state.now }
{
    let held = held_in(state);
    held.engine
}
