// A list after given places. It knows nothing of who gave them.
ghost use Rattle.std.specs.Prelude.{◌≡◌};
ghost use Rattle.shuffle.specs.Swap.{arranged};

use crate::swapping::swap;

// The entry at `last` changes places with that at the first of the places, the entry before it with that at the second, and so on.
pub(crate) fn arrange(list: &mut [u32], last: usize, places: &[u32])
    ensures { list.new ≡ arranged last places.now list.old }
{
    let mut at = last;
    for place in places {
        swap(list, at, *place as usize);
        at = at.saturating_sub(1);
    }
}
