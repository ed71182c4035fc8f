// The two lists of a try: that of the call, and that which is to be left. They are empty where a call takes no list.
ghost use Rattle.std.specs.Prelude.{◌≤◌};

use crate::calls;
use crate::calls::Call;
use crate::order::{fill, ordered};
use crate::table::Row;
use crate::told::{Told, same_told};
use random::Random;

// The entries that there is room for, of this program's own: three more than the longest list of a row.
pub(crate) const ROOM: usize = 65540;

// The longest list of a row.
pub(crate) const LONGEST: usize = ROOM - 3;

// Whether a call is made by value or over a lent table.
#[derive(Clone, Copy)]
pub(crate) enum Way {
    ByValue,
    Lent,
}

#[derive(Drop)]
pub(crate) struct Lists {
    asked: [u32; ROOM],
    left: [u32; ROOM],
}

// The list of a call on a row: the row's entries, and three more after them, so that a store past its end shows.
fn with_more(call: Call, row: Row) -> usize
    ensures { result ≤ 65540 }
{
    if call.takes_list() {
        row.length.min(LONGEST) + 3
    } else {
        0
    }
}

// The call on the row's own entries of a list, which is filled first.
fn asked(call: Call, row: Row, g: Random, list: &mut [u32], budget: u32, way: Way) -> Told<Random> {
    fill(list);
    let n = row.length.min(list.len());
    let entries = &mut list[..n];
    match way {
        Way::ByValue => calls::ask(call, row, g, entries, budget),
        Way::Lent => calls::ask_in(call, row, g, entries, budget),
    }
}

impl Lists {
    pub(crate) fn new() -> Lists {
        Lists {
            asked: [0; ROOM],
            left: [0; ROOM],
        }
    }

    // What is ordered where so many words may be looked at.
    pub(crate) fn needed(
        &mut self,
        call: Call,
        row: Row,
        g: Random,
        patience: u32,
    ) -> Told<Random> {
        let n = with_more(call, row);
        ordered(call, row, g, &mut self.left[..n], patience)
    }

    // Whether the whole answer and the whole list are as ordered, with the entries past the row's own.
    pub(crate) fn are_as_ordered(
        &mut self,
        call: Call,
        row: Row,
        g: Random,
        budget: u32,
        way: Way,
    ) -> bool {
        let n = with_more(call, row);
        let told = asked(call, row, g, &mut self.asked[..n], budget, way);
        let right = ordered(call, row, g, &mut self.left[..n], budget);
        same_told(told, right) && self.asked[..n] == self.left[..n]
    }
}
