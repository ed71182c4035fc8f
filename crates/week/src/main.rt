// Prints the plan of a week: which inlet opens in which slot and where the blanks go, day after day from one generator. It takes six
// arguments, KIND SEED INLETS BLANKS DAYS BUDGET; without any it prints an example, and with -h or --help the usage.
#![tactic(auto)]

ghost use Rattle.std.specs.Prelude.{◌≡◌, length};
ghost use Rattle.week.specs.Slots.{WithinLimit, most_slots};

mod arguments;
mod decimal;
mod job;
mod planning;
mod report;

use job::Job;
use std::io;

// Room for the longest day. The promise gives its length, which a part of it needs.
fn longest_day() -> [u32; job::MOST_SLOTS]
    ensures { most_slots ≡ length result }
{
    [0; job::MOST_SLOTS]
}

fn run(rt: &impl Print, job: Job) -> io::Result<()>
    requires { WithinLimit job.inlets job.blanks }
{
    report::tell_job(rt, job)?;
    let mut slots = longest_day();
    let n = (job.inlets + job.blanks) as usize;
    planning::plan_days(rt, job, &mut slots[..n])
}

fn main(rt: HostRuntime) -> io::Result<()> {
    if arguments::is_help(&rt) {
        return report::write_usage(&rt);
    }
    if !arguments::is_given(&rt, 1) {
        let shown = job::example();
        report::tell_example(&rt, shown)?;
        return run(&rt, shown);
    }
    let stderr = rt.stderr();
    let Some(job) = arguments::from_arguments(&rt, &stderr) else {
        return report::write_usage(&stderr);
    };
    if job.seed == 0 {
        report::warn_of_seed_zero(&stderr);
    }
    run(&rt, job)
}
