// MT19937, the Mersenne Twister of Matsumoto and Nishimura: a generator by value, and the same over a lent table.
#![tactic(auto)]

mod constants;
mod table;
mod word;

ghost use Rattle.mersenne_twister.specs.Promises.{TwisterFromU32SeedPromise, TwisterFromSeedPromise, TwisterSeedPromise};
ghost use Rattle.mersenne_twister.specs.Promises.{TwisterFromPartsPromise, TwisterRandPromise, TwisterNextU64Promise};
ghost use Rattle.mersenne_twister.specs.Promises.{TwisterTwistPromise, TwisterMtiPromise, TwisterSetMtiPromise};
ghost use Rattle.mersenne_twister.specs.Table.{drawn, drawn64};

pub use constants::END;
use source::{Drawn, Source};
use table::fold_seed;
pub use table::{Step, from_seed_in, next_u64_in, rand_in, seed_in, stored_position, twist_in};
pub use word::temper_word;

// The table of 624 words and the position in it, `mt` and `mti` in mt19937ar.c.
#[repr(C)]
#[derive(Clone, Copy, PartialEq, Eq, Debug)]
pub struct MersenneTwister {
    pub mt: [u32; 624],
    pub mti: u32,
}

impl MersenneTwister {
    // Seeded from a number.
    #[tactic(auto, using(crate::specs::TableLaws::seeded_in_lem))]
    pub fn from_u32_seed(seed: u32) -> MersenneTwister
        ensures { TwisterFromU32SeedPromise seed result }
    {
        let mut mt = [0u32; 624];
        let mti = seed_in(&mut mt, seed);
        MersenneTwister { mt, mti }
    }

    // Seeded from 32 bytes.
    pub fn from_seed(seed: [u8; 32]) -> MersenneTwister
        ensures { TwisterFromSeedPromise seed result }
    {
        MersenneTwister::from_u32_seed(fold_seed(&seed))
    }

    // Seeded anew from a number, whatever the generator was.
    #[tactic(auto, using(crate::specs::TableLaws::seeded_in_lem))]
    pub fn seed(mut self, seed: u32) -> MersenneTwister
        ensures { TwisterSeedPromise seed result }
    {
        self.mti = seed_in(&mut self.mt, seed);
        self
    }

    // Set by hand. Any position is kept as it is given.
    pub fn from_parts(mt: [u32; 624], mti: u32) -> MersenneTwister
        ensures { TwisterFromPartsPromise mt mti result }
    {
        MersenneTwister { mt, mti }
    }

    // The next word.
    pub fn rand(mut self) -> Drawn<u32, MersenneTwister>
        ensures { TwisterRandPromise self result }
    {
        let step = rand_in(&mut self.mt, self.mti);
        self.mti = step.mti;
        Drawn {
            word: step.word,
            next: self,
        }
    }

    // The next two words as one, the high word first.
    pub fn next_u64(mut self) -> Drawn<u64, MersenneTwister>
        ensures { TwisterNextU64Promise self result }
    {
        let step = next_u64_in(&mut self.mt, self.mti);
        self.mti = step.mti;
        Drawn {
            word: step.word,
            next: self,
        }
    }

    // The twist.
    pub fn twist(mut self) -> MersenneTwister
        ensures { TwisterTwistPromise self result }
    {
        self.mti = twist_in(&mut self.mt);
        self
    }

    // The position.
    pub fn mti(self) -> u32
        ensures { TwisterMtiPromise self result }
    {
        self.mti
    }

    // The position set, at most 624.
    pub fn set_mti(mut self, value: u32) -> MersenneTwister
        ensures { TwisterSetMtiPromise self value result }
    {
        self.mti = stored_position(value);
        self
    }
}

impl Source for MersenneTwister {
    ghost drawn = { drawn };

    ghost drawn64 = { drawn64 };

    fn next_u32(self) -> Drawn<u32, MersenneTwister> {
        self.rand()
    }

    fn next_u64(self) -> Drawn<u64, MersenneTwister> {
        MersenneTwister::next_u64(self)
    }
}
