// What the exports hand back beside the state and the table that they leave. Refused, every part but the refusal is 0. The wide parts
// stand first, and `used` with `refusal` in one word of 8 bytes: an answer is handed on by whole registers.
ghost use Rattle.std.specs.Prelude.{◌≡◌};
ghost use Rattle.vrd_ffi.specs.Handed.{number};
ghost use Rattle.lent_state.specs.State.{state_after};

use lent_state::settle;
use random::Engine;
use words::Outcome;

// A word of 32 or 64 bits, or a position.
#[repr(C)]
#[derive(Clone, Copy)]
pub struct Word {
    pub value: u64,
    pub refusal: u32,
}

// A word of 64 bits, read as signed.
#[repr(C)]
#[derive(Clone, Copy)]
pub struct SignedWord {
    pub value: i64,
    pub refusal: u32,
}

// A number drawn, and the words used.
#[repr(C)]
#[derive(Clone, Copy)]
pub struct Number {
    pub value: u64,
    pub used: u32,
    pub refusal: u32,
}

// A signed number drawn, and the words used.
#[repr(C)]
#[derive(Clone, Copy)]
pub struct Integer {
    pub used: u32,
    pub refusal: u32,
    pub value: i32,
}

// An entry of a list, its place, and the words used.
#[repr(C)]
#[derive(Clone, Copy)]
pub struct Choice {
    pub place: usize,
    pub value: u64,
    pub used: u32,
    pub refusal: u32,
}

// A float of 32 bits.
#[repr(C)]
#[derive(Clone, Copy)]
pub struct Number32 {
    pub value: f32,
    pub refusal: u32,
}

// A float of 64 bits.
#[repr(C)]
#[derive(Clone, Copy)]
pub struct Number64 {
    pub value: f64,
    pub refusal: u32,
}

// A coin, and the words used.
#[repr(C)]
#[derive(Clone, Copy)]
pub struct Coin {
    pub used: u32,
    pub refusal: u32,
    pub value: bool,
}

// Whether two generators are equal.
#[repr(C)]
#[derive(Clone, Copy)]
pub struct Equality {
    pub refusal: u32,
    pub equal: bool,
}

// What a call tells, as it is handed out, and the engine after it settled into the state.
pub(crate) fn number_from(o: Outcome, next: Engine, state: &mut [u64; 6]) -> Number
    ensures told { result ≡ number o.value o.used o.refusal }
    ensures state { state.new ≡ state_after o.refusal next state.old }
{
    settle(o.refusal, next, state);
    Number {
        value: o.value as u64,
        used: o.used,
        refusal: o.refusal,
    }
}

// The same answer, field by field: an answer that a function leaves in memory is so kept apart from the common one, which stays in
// registers.
pub(crate) fn number_apart(a: Number) -> Number
    ensures { result ≡ a }
{
    Number {
        value: a.value,
        used: a.used,
        refusal: a.refusal,
    }
}

// The same of a choice.
pub(crate) fn choice_apart(a: Choice) -> Choice
    ensures { result ≡ a }
{
    Choice {
        place: a.place,
        value: a.value,
        used: a.used,
        refusal: a.refusal,
    }
}
