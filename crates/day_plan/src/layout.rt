// The day before it is shuffled.
ghost use Rattle.std.specs.Prelude.{◌≡◌, ◌<◌, ◌≤◌, length};
ghost use Rattle.lists.specs.Limit.{list_limit};
ghost use Rattle.day_plan.specs.Day.{laid_out};
ghost use Rattle.day_plan.specs.DayLaws.{slot_of};

// What the slot i holds: 0 where it is a blank, and otherwise its inlet.
fn slot_of(blanks: usize, i: usize) -> u32
    requires { i < list_limit }
    ensures { result ≡ slot_of blanks i }
{
    (i + 1).saturating_sub(blanks) as u32
}

// The blanks first, and then every inlet once.
pub(crate) fn lay_out(day: &mut [u32], blanks: usize)
    requires { length day.old ≤ list_limit }
    ensures { day.new ≡ laid_out blanks (length day.old) }
{
    for (i, slot) in day.iter_mut().enumerate() {
        *slot = slot_of(blanks, i);
    }
}
