// The days of a week, each planned from the generator that the day before it left.
use crate::job::Job;
use crate::report;
use random::{Kind, Random};
use std::io;
use wrapping::Wide;

// Each kind by its own call. A seed of kind 1 has 32 bits already.
fn generator_of(kind: Kind, seed: u64) -> Random {
    match kind {
        Kind::Xoshiro256PlusPlus => making::from_u64_seed(seed),
        Kind::MersenneTwister => {
            making::new_mersenne_twister_with_seed((seed % 0x1_0000_0000) as u32)
        }
        Kind::Pcg32 => making::new_pcg32_with_seed(seed),
        Kind::Pcg64 => making::new_pcg64_with_seed(Wide { high: 0, low: seed }),
    }
}

// Where a day is refused it ends there: the days after it would start from a generator that has not moved.
pub(crate) fn plan_days(rt: &impl Print, job: Job, slots: &mut [u32]) -> io::Result<()> {
    let mut next = generator_of(job.kind, job.seed);
    let mut total = 0u64;
    for day in 1..=job.days {
        let plan = day_plan::plan_day(next, slots, job.blanks as usize, job.budget);
        match plan.told {
            Ok(given) => {
                report::tell_day(rt, job, day, slots, given.used)?;
                total = total.wrapping_add(u64::from(given.used));
                next = plan.next;
            }
            Err(refusal) => {
                report::tell_refusal(rt, job, day, refusal)?;
                return report::tell_total(rt, total, day.wrapping_sub(1));
            }
        }
    }
    report::tell_total(rt, total, job.days)
}
