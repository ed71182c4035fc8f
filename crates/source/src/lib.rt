// What each generator answers to a draw, a word and the generator after it, and the trait of what can be drawn from.
#![tactic(auto)]

ghost use Rattle.std.specs.Prelude.{◌≡◌, ℕ};
ghost use Rattle.source.specs.declared.Drawn.{Drawn};

// A word, and the generator after it.
#[derive(Clone, Copy)]
pub struct Drawn<W, G> {
    pub word: W,
    pub next: G,
}

// A generator by value: a draw hands back the word and the generator after it.
pub trait Source: Copy {
    // The next word of 32 bits, and the generator after it.
    ghost drawn: { Self → Drawn ℕ Self };

    // The next word of 64 bits, and the generator after it.
    ghost drawn64: { Self → Drawn ℕ Self };

    // The next word of 32 bits.
    fn next_u32(self) -> Drawn<u32, Self>
        ensures { result ≡ drawn self };

    // The next word of 64 bits, by the kind's own order of halves.
    fn next_u64(self) -> Drawn<u64, Self>
        ensures { result ≡ drawn64 self };
}
