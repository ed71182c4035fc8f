// Lists and buffers: `choose`, `shuffle`, `rand_slice` and byte filling. Entry i of a list is 7 * i + 3.
use crate::digest::Digest;
use crate::outcome::Outcome;
use random::Random;

fn number_entries(list: &mut [u32]) {
    let mut next = 3u32;
    for entry in list.iter_mut() {
        *entry = next;
        next = next.wrapping_add(7);
    }
}

// A call on a list of so many entries, where there is room for them.
fn on_list<F: FnOnce(&mut [u32]) -> Outcome>(n: u32, call: F) -> Option<Outcome>
    requires { F.IsAlwaysCallable call }
{
    let mut room = [0; 65536];
    let list = room.get_mut(..n as usize)?;
    number_entries(list);
    Some(call(list))
}

pub(crate) fn choose(g: Random, n: u32, budget: u32) -> Option<Outcome> {
    on_list(n, |list| Outcome::of_choice(lists::choose(g, list, budget)))
}

pub(crate) fn shuffle(g: Random, n: u32, budget: u32) -> Option<Outcome> {
    on_list(n, |list| {
        let drawn = Outcome::of_shuffle(shuffle::shuffle(g, list, budget));
        let value = Digest::new().words(list).0;
        Outcome { value, ..drawn }
    })
}

pub(crate) fn rand_slice(g: Random, n: u32, window: u32, budget: u32) -> Option<Outcome> {
    on_list(
        n,
        |list| Outcome::of_start(lists::rand_slice(g, list, window as usize, budget)),
    )
}

// `fill_bytes`, of so many bytes.
pub(crate) fn fill_bytes(g: Random, n: u32) -> Option<Outcome> {
    let mut room = [0; 4096];
    let bytes = room.get_mut(..n as usize)?;
    let next = filling::fill_bytes(g, bytes);
    Some(Outcome::plain(Digest::new().bytes(bytes).0, next))
}
