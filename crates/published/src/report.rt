// How a comparison is told: what was compared, and how many of the words agree.
use std::io;

pub(crate) fn tell(rt: &impl Print, what: &str, right: usize, of: usize) -> io::Result<()> {
    println!(rt; "{what}: {right} of {of} words agree")
}

// How many of the next words are theirs, place by place.
pub(crate) fn agreeing<I: Iterator<Item = u64> + Drop>(words: I, theirs: &[u64]) -> usize
    requires { I.can_next words }
{
    theirs
        .iter()
        .zip(words)
        .filter(|(theirs, ours)| **theirs == *ours)
        .count()
}
