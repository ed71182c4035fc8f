// The calls that are tried, and how each is asked, by value and over a lent table.
use crate::table::Row;
use crate::told;
use crate::told::Told;
use random::{Engine, Random, engine_of};

// The calls on a generator.
#[derive(Clone, Copy, PartialEq, Eq)]
pub(crate) enum Call {
    Bounded,
    RandomRange,
    Uint,
    Char,
    Int,
    Range,
    Choose,
    Shuffle,
    RandSlice,
    Bool,
    Uniform,
    Split,
    Seed,
    SetMti,
    FillBytes,
}

impl Call {
    // Whether it is made on a list.
    pub(crate) fn takes_list(self) -> bool {
        matches!(self, Call::Choose | Call::Shuffle | Call::RandSlice)
    }

    // Whether words are looked through for a good one, within a budget.
    pub(crate) fn has_budget(self) -> bool {
        !matches!(
            self,
            Call::Bool | Call::Uniform | Call::Split | Call::Seed | Call::SetMti | Call::FillBytes
        )
    }
}

// What a heading names.
#[derive(Clone, Copy)]
pub(crate) enum Tried {
    OnGenerators(Call),
    Make,
    WindowOf,
}

// The call of a name. A heading has 16 letters for it, and the first eight tell the names apart.
// Not a `TryFrom`: its error type and the `ok()` at its one call would make it longer; `FromStr` wants a `str`, and the table is bytes.
pub(crate) fn named(name: &[u8]) -> Option<Tried> {
    let call = match name {
        b"bounded " => Call::Bounded,
        b"random_r" => Call::RandomRange,
        b"uint    " => Call::Uint,
        b"char    " => Call::Char,
        b"int     " => Call::Int,
        b"range   " => Call::Range,
        b"choose  " => Call::Choose,
        b"shuffle " => Call::Shuffle,
        b"rand_sli" => Call::RandSlice,
        b"bool    " => Call::Bool,
        b"uniform " => Call::Uniform,
        b"split   " => Call::Split,
        b"seed    " => Call::Seed,
        b"set_mti " => Call::SetMti,
        b"fill_byt" => Call::FillBytes,
        b"make    " => return Some(Tried::Make),
        b"window_o" => return Some(Tried::WindowOf),
        _ => return None,
    };
    Some(Tried::OnGenerators(call))
}

// A call by value, on a list where it takes one.
pub(crate) fn ask(call: Call, row: Row, g: Random, list: &mut [u32], budget: u32) -> Told<Random> {
    let (a, b) = (row.first.word(), row.second.word());
    let (min, max) = (row.first.signed(), row.second.signed());
    match call {
        Call::Bounded => told::number(bounded::bounded(g, b, budget)),
        Call::RandomRange => told::number(bounded::random_range(g, a, b, budget)),
        Call::Uint => told::number(spans::uint(g, a, b, budget)),
        Call::Char => told::number(bounded::char(g, budget)),
        Call::Int => told::int(spans::int(g, min, max, budget)),
        Call::Range => told::int(spans::range(g, min, max, budget)),
        Call::Choose => told::chosen(lists::choose(g, list, budget)),
        Call::Shuffle => told::shuffled(shuffle::shuffle(g, list, budget)),
        Call::RandSlice => told::start(lists::rand_slice(g, list, row.window, budget)),
        Call::Bool => told::flip(float_draws::bool(g, row.first.float())),
        Call::Uniform => told::spread(float_draws::uniform(g, row.interval())),
        Call::Split => told::split(parts::split(g), g),
        Call::Seed => told::only(None, making::seed(g, a)),
        Call::SetMti => told::only(None, parts::set_mti(g, a)),
        Call::FillBytes => told::only(None, filling::fill_bytes(g, &mut [])),
    }
}

fn ask_engine(
    call: Call,
    row: Row,
    g: Random,
    mt: &mut [u32; 624],
    list: &mut [u32],
    budget: u32,
) -> Told<Engine> {
    let e = engine_of(g);
    let (a, b) = (row.first.word(), row.second.word());
    let (min, max) = (row.first.signed(), row.second.signed());
    match call {
        Call::Bounded => told::number(bounded::bounded_in(e, mt, b, budget)),
        Call::RandomRange => told::number(bounded::random_range_in(e, mt, a, b, budget)),
        Call::Uint => told::number(spans::uint_in(e, mt, a, b, budget)),
        Call::Char => told::number(bounded::char_in(e, mt, budget)),
        Call::Int => told::int(spans::int_in(e, mt, min, max, budget)),
        Call::Range => told::int(spans::range_in(e, mt, min, max, budget)),
        Call::Choose => told::chosen(lists::choose_in(e, mt, list, budget)),
        Call::Shuffle => told::shuffled(shuffle::shuffle_in(e, mt, list, budget)),
        Call::RandSlice => told::start(lists::rand_slice_in(e, mt, list, row.window, budget)),
        Call::Bool => told::flip(float_draws::bool_in(e, mt, row.first.float())),
        Call::Uniform => told::spread(float_draws::uniform_in(e, mt, row.interval())),
        Call::Split => told::split_in(parts::split_in(e), g),
        Call::Seed => told::only(None, making::seed_in(e, mt, a)),
        Call::SetMti => told::only(None, parts::set_mti_in(e, a)),
        Call::FillBytes => told::only(None, filling::fill_bytes_in(e, mt, &mut [])),
    }
}

// The same over a lent table, which holds afterwards what the call left there.
pub(crate) fn ask_in(
    call: Call,
    row: Row,
    g: Random,
    list: &mut [u32],
    budget: u32,
) -> Told<Random> {
    let mut mt = g.twister.mt;
    ask_engine(call, row, g, &mut mt, list, budget).with_table(mt)
}
