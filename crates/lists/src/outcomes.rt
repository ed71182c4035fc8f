// Outcomes read on a list: the entry at the place that was drawn, and where a part starts.
ghost use Rattle.lists.specs.Promises.{EntryOfPromise, StartOfPromise};

use words::Outcome;

// An outcome with the place beside the value. Where it is refused, place, value and used are 0.
#[derive(Clone, Copy)]
pub struct Choice {
    pub refusal: u32,
    pub place: usize,
    pub value: u32,
    pub used: u32,
}

// An outcome whose value is a start. Where it is refused, start and used are 0.
#[derive(Clone, Copy)]
pub struct SliceOutcome {
    pub refusal: u32,
    pub start: usize,
    pub used: u32,
}

// The place that was drawn, and the entry there; value 0 where none was drawn, or the list has none there.
pub fn entry_of(list: &[u32], o: Outcome) -> Choice
    ensures { EntryOfPromise list.now o result }
{
    let place = o.value as usize;
    if o.refusal == words::refusal::ANSWERED {
        if place < list.len() {
            let value = list[place];
            return Choice {
                refusal: o.refusal,
                place,
                value,
                used: o.used,
            };
        }
    }
    Choice {
        refusal: o.refusal,
        place,
        value: 0,
        used: o.used,
    }
}

// The value that was drawn, as the start of a part.
pub fn start_of(o: Outcome) -> SliceOutcome
    ensures { StartOfPromise o result }
{
    SliceOutcome {
        refusal: o.refusal,
        start: o.value as usize,
        used: o.used,
    }
}
