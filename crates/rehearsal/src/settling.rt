// The draws that a list of words settles. It knows nothing of where the words are from.
ghost use Rattle.std.specs.Prelude.{◌≡◌};
ghost use Rattle.rehearsal.specs.Bounds.{bound_after};
ghost use Rattle.rehearsal.specs.Promises.{SettlePromise};

// The bound after some draws, the first below `first`, where the bounds fall or stay.
pub(crate) fn bound_after(first: u32, falls: bool, settled: u32) -> u32
    ensures { result ≡ bound_after falls first settled }
{
    if falls {
        first.saturating_sub(settled)
    } else {
        first
    }
}

// How many draws these words settle, one after the other, the first below r and the further ones below bounds that fall or stay. Their
// values take the place of the words, from the first entry on; the entries after them stay.
pub fn settle(list: &mut [u32], r: u32, falls: bool) -> usize
    ensures { SettlePromise list.old r falls result list.new }
{
    let mut settled: usize = 0;
    let mut bound = r;
    for i in 0..list.len() {
        let word = list[i];
        if words::is_good(word, bound) {
            list[settled] = words::quotient(word, bound);
            settled += 1;
            bound = bound_after(bound, falls, 1);
        }
    }
    settled
}
