ghost use Rattle.std.specs.Prelude.{◌≡◌, ◌<◌, ◌^◌, slice_index};
ghost use Rattle.step_core.specs.Steps.{place_of, becomes, gives, after_step, IsInRange, SumFits};

use crate::{HEAD, NEXT, Step, Words, frozen_word};

/// Makes one step: changes at most the word that the step works on, and gives a number, both as
/// docs/STEPS.md says. Takes no memory and refuses nothing.
#[tactic(auto, using(crate::proofs::seen::FrozenWord::frozen_below))]
pub fn step(words: &mut Words, step: Step) -> u64
    requires place { IsInRange step words.old }
    requires fits { SumFits step words.old }
    ensures words { words.new ≡ after_step step words.old }
    ensures answer { result ≡ gives step (slice_index words.old (place_of step)) }
{
    let place = place_of(step);
    let word = words.word(place);
    words.store(place, becomes(step, word));
    gives(step, word)
}

fn place_of(step: Step) -> u64
    ensures { result ≡ place_of step }
{
    match step {
        Step::LoadHead | Step::SwapHead { .. } => HEAD,
        Step::Draw { .. } => NEXT,
        Step::LoadSealed { at }
        | Step::LoadBucket { at }
        | Step::Write { at, .. }
        | Step::SwapRow { at, .. }
        | Step::InitBucket { at, .. }
        | Step::Freeze { at } => at,
    }
}

fn becomes(step: Step, word: u64) -> u64
    requires { becomes step word < 2 ^ 64 }
    ensures { result ≡ becomes step word }
{
    match step {
        Step::LoadHead | Step::LoadSealed { .. } | Step::LoadBucket { .. } => word,
        Step::Draw { len } => word + len,
        Step::Write { value, .. } => value,
        Step::SwapRow { old, new, .. } | Step::SwapHead { old, new } => {
            if word == old { new } else { word }
        }
        Step::InitBucket { new, .. } => if word == 0 { new } else { word },
        Step::Freeze { .. } => frozen_word(word),
    }
}

fn gives(step: Step, word: u64) -> u64
    ensures { result ≡ gives step word }
{
    match step {
        Step::Write { value, .. } => value,
        _ => word,
    }
}
