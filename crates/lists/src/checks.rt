// What a list and a window are refused with before a word is drawn.
ghost use Rattle.std.specs.Prelude.{◌≡◌};
ghost use Rattle.lists.specs.Checks.{list_refusal, slice_refusal, window_refusal};
ghost use Rattle.lists.specs.Replies.{refusal_in};

use words::Refusal;

// A list of n entries: only its length is looked at.
#[tactic(auto, unfolding(crate::specs::Checks::list_refusal))]
pub(crate) fn list_check(n: usize) -> Result<(), Refusal>
    ensures { refusal_in result ≡ list_refusal n }
{
    if n == 0 {
        return Err(Refusal::Empty);
    }
    if n > crate::limit::LIST_LIMIT {
        return Err(Refusal::TooLong);
    }
    Ok(())
}

// A window, in a list of n entries.
#[tactic(auto, unfolding(crate::specs::Checks::window_refusal))]
fn window_check(n: usize, window: usize) -> Result<(), Refusal>
    ensures { refusal_in result ≡ window_refusal n window }
{
    if window == 0 {
        return Err(Refusal::Window);
    }
    if window > n {
        return Err(Refusal::Window);
    }
    Ok(())
}

// Both: the list first.
pub(crate) fn slice_check(n: usize, window: usize) -> Result<(), Refusal>
    ensures { refusal_in result ≡ slice_refusal n window }
{
    list_check(n).and(window_check(n, window))
}
