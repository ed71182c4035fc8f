// The next words of a generator, as many as a budget lets.
ghost use Rattle.std.specs.Iterator.{at_most};

use random::{Engine, Random, engine_of, with_table};

const TWO_TO_32: u64 = 0x1_0000_0000;

#[derive(Drop)]
pub(crate) struct Words {
    engine: Engine,
    table: [u32; 624],
    left: u32,
}

impl Iterator for Words {
    type Item = u32;

    ghost remaining = { λ words. at_most words.left };

    fn next(&mut self) -> Option<u32> {
        self.left = self.left.checked_sub(1)?;
        let d = random::next_u32(self.engine, &mut self.table);
        self.engine = d.next;
        Some(d.word)
    }
}

impl Words {
    pub(crate) fn of(g: Random, budget: u32) -> Words {
        let table = g.twister.mt;
        Words {
            engine: engine_of(g),
            table,
            left: budget,
        }
    }

    // How many words of the budget are left.
    pub(crate) fn left(&self) -> u32 {
        self.left
    }

    // The generator after the words.
    pub(crate) fn generator(self) -> Random {
        with_table(self.engine, self.table)
    }

    // A number below r, from the first good word that is left: a word w is good below r if (w * r) mod 2^32 is at least 2^32 mod r, and
    // draws the quotient.
    pub(crate) fn draw(&mut self, r: u64) -> Option<u64> {
        self.by_ref()
            .map(|w| u64::from(w).wrapping_mul(r))
            .find(|product| r != 0 && product % TWO_TO_32 >= TWO_TO_32 % r)
            .map(|product| product / TWO_TO_32)
    }
}
