//! A word by guesses of it.
ghost use Rattle.std.specs.Prelude.{◌≡◌, ◌≢◌, ℕ, ◌<◌, ◌≤◌, IfOk, IfErr, length};
ghost use Rattle.pm_coder.specs.Coders.{Coding, Can, IsWriting};
ghost use Rattle.pm_coder.specs.Guesses.{Tells, told};
ghost use Rattle.pm_pack.specs.Guesses.{ahead, moved_ahead, folded, unfolded, miss, missed};
ghost use Rattle.pm_pack.specs.Guesses.{word_answers, guessed_answers};

use pm_coder::{Coder, Fault, Predictor, guess, guess_number};

const MOST: u32 = u32::MAX;

const HALF: u32 = 0x8000_0000;

/// What a word may be, and the set and the contexts of the choices that tell it.
#[derive(Clone, Copy)]
pub(crate) struct Guess {
    pub(crate) word: u32,
    pub(crate) set: u32,
    pub(crate) kind: u32,
    pub(crate) detail: u32,
}

/// A word by guesses of it: whether it is the first, the second and so on of `firsts`, and else by
/// the last one. Who writes writes the word that is wanted, and who reads answers the one that was
/// written, whatever is wanted. It makes at most 63 choices and one for each of `firsts`. A guess
/// that isn't the word can't be told later: who reads answers `Cut` then, since no word is told so.
pub(crate) fn code_guessed<P: Predictor, C: Coder>(
    predictor: &mut P,
    coder: &mut C,
    near: Guess,
    firsts: &[u32],
    wanted: u32,
) -> Result<u32, Fault>
    requires set { near.set < 4294967294 }
    requires few { length firsts.now < 4294967296 }
    ensures ok { IfOk result (λ w. Tells P.Predictor predictor.old (C.coding coder.old)
        (guessed_answers near firsts.now w) predictor.new (C.coding coder.new)) }
    ensures wanted { IfOk result (λ w. IsWriting (C.coding coder.old) → w ≡ wanted) }
    ensures memory { IfErr result (λ e. e ≡ Fault.OutOfMemory → IsWriting (C.coding coder.old)) }
    ensures cut { IfErr result (λ e. e ≡ Fault.Cut → (w : ℕ) → w < 4294967296 → ¬ Can
        (C.coding coder.old) (told P.Predictor predictor.old (guessed_answers near firsts.now w))) }
{
    match firsts {
        [] => code_word(predictor, coder, near, wanted),
        [first, rest @ ..] => {
            let contexts = [near.kind, near.detail];
            let left = firsts.len() as u32;
            if guess(
                predictor,
                coder,
                near.set,
                &contexts,
                left,
                wanted == *first,
            )? {
                return Ok(*first);
            }
            let word = code_guessed(predictor, coder, near, rest, wanted)?;
            if word == *first {
                return Err(Fault::Cut);
            }
            Ok(word)
        }
    }
}

// A word by one guess.
fn code_word<P: Predictor, C: Coder>(
    predictor: &mut P,
    coder: &mut C,
    near: Guess,
    wanted: u32,
) -> Result<u32, Fault>
    requires set { near.set < 4294967294 }
    ensures ok { IfOk result (λ w. Tells P.Predictor predictor.old (C.coding coder.old)
        (word_answers near w) predictor.new (C.coding coder.new)) }
    ensures wanted { IfOk result (λ w. IsWriting (C.coding coder.old) → w ≡ wanted) }
    ensures memory { IfErr result (λ e. e ≡ Fault.OutOfMemory → IsWriting (C.coding coder.old)) }
    ensures cut { IfErr result (λ e. e ≡ Fault.Cut → (w : ℕ) → w < 4294967296
        → ¬ Can (C.coding coder.old) (told P.Predictor predictor.old (word_answers near w))) }
{
    let contexts = [near.kind, near.detail];
    if guess(
        predictor,
        coder,
        near.set,
        &contexts,
        0,
        wanted == near.word,
    )? {
        return Ok(near.word);
    }
    let other = miss(near.word, wanted);
    let n = guess_number(predictor, coder, near.set + 1, &contexts, other)?;
    Ok(missed(near.word, n))
}

// Which number a word that isn't the guessed one is.
fn miss(guessed: u32, word: u32) -> u32
    ensures value { guessed ≢ word → result ≡ miss guessed word }
{
    folded(ahead(guessed, word))
}

// The word of a number.
fn missed(guessed: u32, n: u32) -> u32
    requires { n < 4294967295 }
    ensures { result ≡ missed guessed n }
{
    moved_ahead(guessed, unfolded(n))
}

/// How many steps up from one word to another, around through 0 where that is less.
pub(crate) fn ahead(from: u32, to: u32) -> u32
    ensures value { result ≡ ahead from to }
    ensures some { from ≢ to → 0 < result }
{
    if from <= to {
        to - from
    } else {
        MOST - (from - to) + 1
    }
}

/// The word so many steps up.
pub(crate) fn moved_ahead(from: u32, steps: u32) -> u32
    ensures { result ≡ moved_ahead from steps }
{
    if steps <= MOST - from {
        from + steps
    } else {
        steps - (MOST - from) - 1
    }
}

// Steps from the next on, by turns up and down.
fn folded(steps: u32) -> u32
    ensures value { 0 < steps → result ≡ folded steps }
{
    if steps == 0 {
        0
    } else if steps <= HALF {
        2 * (steps - 1)
    } else {
        2 * (MOST - steps) + 1
    }
}

fn unfolded(n: u32) -> u32
    requires { n < 4294967295 }
    ensures { result ≡ unfolded n }
{
    if n % 2 == 0 { n / 2 + 1 } else { MOST - n / 2 }
}
