// Each row of the table, tried on every generator, by value and over a lent table, at budgets on both sides of its need.
ghost use Rattle.std.specs.Prelude.{◌≤◌};

use crate::calls::{Call, Tried};
use crate::generators::{KINDS, STATES, State};
use crate::listed::{LONGEST, Lists, ROOM, Way};
use crate::report::{Place, Tally};
use crate::table::Row;
use crate::told::BUDGET;
use crate::{calls, generators, order, report, seeds, table, windows};
use random::Random;
use std::io;

// Words that are looked through for a good one, more than two tables of the twister; for a long list as many more as it may have entries.
const PATIENCE: u32 = 1300;

// The tries of a row on a generator: four budgets by value, then the same over a lent table.
const WAYS: [Way; 2] = [Way::ByValue, Way::Lent];

const BUDGETS: usize = 4;

const TRIES: usize = 8;

// A row's call on a generator in some state.
#[derive(Clone, Copy)]
struct Case {
    call: Call,
    row: Row,
    g: Random,
    state: State,
}

impl Case {
    // The budgets of the row on the generator: its own, or else those around what it needs. Around are one short of it, just that, one
    // more, and the largest; where no word is needed, or the call is refused at any budget, or no word is ever good, 0, 1, and two large
    // ones.
    fn budgets(self, lists: &mut Lists) -> [u32; BUDGETS] {
        if let Some(own) = self.row.budget {
            return [own; BUDGETS];
        }
        let patience = if self.row.length < 1000 {
            PATIENCE
        } else {
            PATIENCE + 65536
        };
        match lists.needed(self.call, self.row, self.g, patience).said {
            Err(BUDGET) => [0, 1, PATIENCE, patience],
            Ok(parts) if parts.used > 0 => {
                let used = parts.used;
                [used - 1, used, used.wrapping_add(1), u32::MAX]
            }
            _ => [0, 1, patience, u32::MAX],
        }
    }

    // How many of them are tried. A call without a budget is tried once in each layer, and so is a row with a budget of its own, on the
    // generators of zeros alone.
    fn tried(self) -> usize {
        if !self.call.has_budget() {
            return 1;
        }
        match self.row.budget {
            None => BUDGETS,
            Some(_) if self.state == State::Zeros => 1,
            Some(_) => 0,
        }
    }

    // The tries, the first of which has this number among all tries of the row.
    fn try_all(self, rt: &impl Print, first: usize, lists: &mut Lists) -> io::Result<Tally>
        requires { first ≤ 1000 }
    {
        let budgets = self.budgets(lists);
        let tried = self.tried();
        let mut tally = Tally::default();
        for (layer, way) in WAYS.iter().enumerate() {
            for (i, budget) in budgets.iter().take(tried).enumerate() {
                let right = lists.are_as_ordered(self.call, self.row, self.g, *budget, *way);
                let place = Place {
                    line: self.row.line,
                    number: first + BUDGETS * layer + i,
                    budget: u64::from(*budget),
                };
                tally += report::judged(rt, right, place)?;
            }
        }
        Ok(tally)
    }
}

// A row of a call that draws from a generator or changes it.
fn try_call(rt: &impl Print, call: Call, row: Row, lists: &mut Lists) -> io::Result<Tally> {
    let mut tally = Tally::default();
    for (i, state) in STATES.iter().enumerate() {
        for (j, kind) in KINDS.iter().enumerate() {
            let case = Case {
                call,
                row,
                g: generators::generator(*kind, *state),
                state: *state,
            };
            tally += case.try_all(rt, TRIES * (KINDS.len() * i + j), lists)?;
        }
    }
    Ok(tally)
}

// `window_of` of the list's first entries.
fn try_window(rt: &impl Print, row: Row) -> io::Result<Tally> {
    let mut list = [0; ROOM];
    order::fill(&mut list);
    report::one(rt, windows::is_as_ordered(row, &list), row.line)
}

// A row of any call. One that can't be tried counts as one that is not as ordered.
fn try_row(
    rt: &impl Print,
    tried: Option<Tried>,
    row: Row,
    lists: &mut Lists,
) -> io::Result<Tally> {
    match tried {
        Some(tried) if row.length <= LONGEST => match tried {
            Tried::OnGenerators(call) => try_call(rt, call, row, lists),
            Tried::Make => seeds::try_row(rt, row),
            Tried::WindowOf => try_window(rt, row),
        },
        _ => report::one(rt, false, row.line),
    }
}

// Every row of the table, and a line of the report for each heading. A row begins with a space, a heading with a letter or a digit.
pub(crate) fn try_table(rt: &impl Print, text: &[u8]) -> io::Result<()> {
    let mut lists = Lists::new();
    let mut all = Tally::default();
    let mut here = Tally::default();
    // the table from the heading last read on, and from this line on
    let mut heading = text;
    let mut rest = text;
    for (line, number) in text.split(|b| *b == b'\n').zip(1u64..) {
        match line {
            [] | [b'#', ..] => {}
            [b' ', ..] => {
                let tried = heading.get(18..26).and_then(calls::named);
                here += try_row(rt, tried, table::row_of(line, number), &mut lists)?;
            }
            _ => {
                report::write_heading(rt, heading, here)?;
                all += here;
                here = Tally::default();
                heading = rest;
            }
        }
        rest = match rest.get(line.len()..) {
            Some([_, after @ ..]) => after,
            _ => &[],
        };
    }
    report::write_heading(rt, heading, here)?;
    all += here;
    println!(rt; "{all}")
}
