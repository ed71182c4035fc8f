// Blackman and Vigna's xoshiro256++ 1.0, as the Rust's xoshiro.rs has it: four words of state, and draws. How it is seeded and how it jumps
// stand in files of their own.
#![tactic(auto)]

ghost use Rattle.std.specs.Prelude.{◌≡◌};
ghost use Rattle.xoshiro.specs.Generator.{drawn, drawn_high, output, stepped};
ghost use Rattle.xoshiro.specs.Promises.{XoshiroFromPartsPromise, XoshiroNextU64Promise, XoshiroNextU32Promise};

mod jump;
mod seed;

use source::{Drawn, Source};

// The four words of state, s[0] to s[3] in the authors' file.
#[repr(C)]
#[derive(Clone, Copy, PartialEq, Eq, Debug)]
pub struct Xoshiro256PlusPlus {
    pub s0: u64,
    pub s1: u64,
    pub s2: u64,
    pub s3: u64,
}

impl Xoshiro256PlusPlus {
    // The generator with these four words of state, all zeros included.
    pub fn from_parts(s0: u64, s1: u64, s2: u64, s3: u64) -> Xoshiro256PlusPlus
        ensures { XoshiroFromPartsPromise s0 s1 s2 s3 result }
    {
        Xoshiro256PlusPlus { s0, s1, s2, s3 }
    }

    // The word that this state gives.
    #[tactic(auto, unfolding(crate::specs::Generator::output))]
    fn word(self) -> u64
        ensures { result ≡ output self }
    {
        let sum = self.s0.wrapping_add(self.s3);
        wrapping::rotate_left_u64(sum, 23).wrapping_add(self.s0)
    }

    // The state after this one.
    #[tactic(auto, unfolding(crate::specs::Generator::stepped))]
    fn step(self) -> Xoshiro256PlusPlus
        ensures { result ≡ stepped self }
    {
        let t = self.s1 << 17;
        let s2 = self.s2 ^ self.s0;
        let s3 = self.s3 ^ self.s1;
        let s1 = self.s1 ^ s2;
        let s0 = self.s0 ^ s3;
        Xoshiro256PlusPlus {
            s0: s0,
            s1: s1,
            s2: s2 ^ t,
            s3: wrapping::rotate_left_u64(s3, 45),
        }
    }

    // The next word. It is made of the old state.
    pub fn next_u64(self) -> Drawn<u64, Xoshiro256PlusPlus>
        ensures { XoshiroNextU64Promise self result }
    {
        let word = self.word();
        let next = self.step();
        Drawn { word, next }
    }

    // The high half of the next 64-bit word.
    pub fn next_u32(self) -> Drawn<u32, Xoshiro256PlusPlus>
        ensures { XoshiroNextU32Promise self result }
    {
        let d = self.next_u64();
        Drawn {
            word: (d.word >> 32) as u32,
            next: d.next,
        }
    }
}

impl Source for Xoshiro256PlusPlus {
    ghost drawn = { drawn_high };

    ghost drawn64 = { drawn };

    fn next_u32(self) -> Drawn<u32, Xoshiro256PlusPlus> {
        Xoshiro256PlusPlus::next_u32(self)
    }

    fn next_u64(self) -> Drawn<u64, Xoshiro256PlusPlus> {
        Xoshiro256PlusPlus::next_u64(self)
    }
}
