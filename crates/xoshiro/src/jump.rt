// The authors' jump: over the 256 bits of four constants, the states at the bits that are 1 are XORed.
ghost use Rattle.std.specs.Prelude.{◌≡◌, ◌<◌};
ghost use Rattle.xoshiro.specs.Jump.{jump_bit, xored, turned};
ghost use Rattle.xoshiro.specs.Promises.{XoshiroJumpPromise};

use super::Xoshiro256PlusPlus;

// The authors' constants.
const JUMP: [u64; 4] = [
    0x180E_C6D3_3CFD_0ABA,
    0xD5A6_1266_F0C9_392C,
    0xA958_2618_E03F_C9AA,
    0x39AB_DC45_29B1_661C,
];

// A jump on its way: the XOR of the states picked so far, and the state that has been reached.
#[derive(Clone, Copy)]
struct Jumping {
    sum: Xoshiro256PlusPlus,
    at: Xoshiro256PlusPlus,
}

// Bit i of the constants: words in order, bits from 0 up.
fn jump_bit(i: usize) -> u64
    requires { i < 256 }
    ensures { result ≡ jump_bit i }
{
    (JUMP[i / 64] >> (i % 64)) % 2
}

// The two states' words, XORed one by one.
fn xor(x: Xoshiro256PlusPlus, y: Xoshiro256PlusPlus) -> Xoshiro256PlusPlus
    ensures { result ≡ xored x y }
{
    Xoshiro256PlusPlus {
        s0: x.s0 ^ y.s0,
        s1: x.s1 ^ y.s1,
        s2: x.s2 ^ y.s2,
        s3: x.s3 ^ y.s3,
    }
}

// A turn: the state is picked where the bit is 1, and steps.
#[tactic(auto, unfolding(crate::specs::Jump::turned))]
fn turn(j: Jumping, i: usize) -> Jumping
    requires { i < 256 }
    ensures { result ≡ turned i j }
{
    let at = j.at.step();
    if jump_bit(i) == 1 {
        let sum = xor(j.sum, j.at);
        Jumping { sum, at }
    } else {
        Jumping { sum: j.sum, at }
    }
}

impl Xoshiro256PlusPlus {
    // As many steps on as the authors' jump goes, which they say is 2^128: all 256 turns, from a sum of zeros.
    #[tactic(auto, unfolding(crate::specs::Jump::jumping, crate::specs::Jump::jumped))]
    pub fn jump(self) -> Xoshiro256PlusPlus
        ensures { XoshiroJumpPromise self result }
    {
        let none = Xoshiro256PlusPlus {
            s0: 0,
            s1: 0,
            s2: 0,
            s3: 0,
        };
        let mut j = Jumping {
            sum: none,
            at: self,
        };
        for i in 0..256 {
            j = turn(j, i);
        }
        j.sum
    }
}
