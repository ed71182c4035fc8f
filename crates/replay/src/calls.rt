// The calls of the rows, numbered as rust/record/src/call.rs numbers them: document 01's list; then what is only made, and the two long
// runs.
#[derive(Clone, Copy)]
pub(crate) enum Call {
    Rand,
    U64,
    I64,
    Pseudo,
    Seed,
    Split,
    Mti,
    SetMti,
    Twist,
    FillBytes,
    Bounded,
    RandomRange,
    Int,
    Range,
    Uint,
    Char,
    Choose,
    Float,
    Double,
    Bool,
    Uniform,
    Shuffle,
    RandSlice,
    Made,
    Words,
    Draws,
}

// In the order of their numbers, from 0.
const CALLS: [Call; 26] = [
    Call::Rand,
    Call::U64,
    Call::I64,
    Call::Pseudo,
    Call::Seed,
    Call::Split,
    Call::Mti,
    Call::SetMti,
    Call::Twist,
    Call::FillBytes,
    Call::Bounded,
    Call::RandomRange,
    Call::Int,
    Call::Range,
    Call::Uint,
    Call::Char,
    Call::Choose,
    Call::Float,
    Call::Double,
    Call::Bool,
    Call::Uniform,
    Call::Shuffle,
    Call::RandSlice,
    Call::Made,
    Call::Words,
    Call::Draws,
];

// A number that names no call.
#[derive(Clone, Copy)]
pub(crate) struct UnknownCall;

impl TryFrom<u32> for Call {
    type Error = UnknownCall;

    fn try_from(number: u32) -> Result<Call, UnknownCall> {
        CALLS.get(number as usize).copied().ok_or(UnknownCall)
    }
}
