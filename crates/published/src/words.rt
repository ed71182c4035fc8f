// A generator as an iterator over its words, so that one function compares them all.
use source::Source;

// Its words of 32 bits.
#[derive(Clone, Copy)]
pub(crate) struct Words32<S>(pub(crate) S);

impl<S: Source> Iterator for Words32<S> {
    type Item = u64;

    fn next(&mut self) -> Option<u64> {
        let d = self.0.next_u32();
        self.0 = d.next;
        Some(u64::from(d.word))
    }
}

// Its words of 64 bits.
#[derive(Clone, Copy)]
pub(crate) struct Words64<S>(pub(crate) S);

impl<S: Source> Iterator for Words64<S> {
    type Item = u64;

    fn next(&mut self) -> Option<u64> {
        let d = self.0.next_u64();
        self.0 = d.next;
        Some(d.word)
    }
}
