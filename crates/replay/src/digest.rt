// FNV-1a of 64 bits, over bytes and over the little-endian bytes of words; and of a generator's own parts.
use random::{Backend, Random};

const START: u64 = 0xCBF2_9CE4_8422_2325;

#[derive(Clone, Copy)]
pub(crate) struct Digest(pub(crate) u64);

impl Digest {
    pub(crate) fn new() -> Digest {
        Digest(START)
    }

    pub(crate) fn bytes(self, bytes: &[u8]) -> Digest {
        Digest(
            bytes.iter().fold(self.0, |sum, byte| {
                (sum ^ u64::from(*byte)).wrapping_mul(0x0000_0100_0000_01B3)
            }),
        )
    }

    pub(crate) fn word(self, word: u32) -> Digest {
        self.bytes(&word.to_le_bytes())
    }

    fn long(self, n: u64) -> Digest {
        self.bytes(&n.to_le_bytes())
    }

    pub(crate) fn words(self, words: &[u32]) -> Digest {
        words.iter().fold(self, |sum, word| sum.word(*word))
    }

    // Of the kind, the four small words, the twister's position, and for the twister its table.
    pub(crate) fn generator(self, g: Random) -> Digest {
        let small = parts::small_words(g.backend);
        let sum = self
            .word(parts::kind(g.backend))
            .long(small.w0)
            .long(small.w1)
            .long(small.w2)
            .long(small.w3)
            .word(parts::mti(g));
        match g.backend {
            Backend::MersenneTwister => sum.words(&g.twister.mt),
            _ => sum,
        }
    }
}
