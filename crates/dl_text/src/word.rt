ghost use Rattle.std.specs.Prelude.{◌≡◌, List, ℕ, MatchOption, None, Some};
ghost use Rattle.dl_text.specs.Readers.{Gives, shared_length};
ghost use Rattle.dl_text.specs.Words.{after, words_from};

use crate::stop::Stop;

/// A word of a closed list of words, with the byte that ends it where one does: a type of no data, one variant a word.
pub trait Word: Copy {
    /// The bytes of the word.
    ghost text: { Self → List ℕ };

    /// The bytes of the word.
    fn text(self) -> &'static [u8]
        ensures { result.now ≡ text self };
}

/// How many first bytes two texts share.
fn shared_of(left: &[u8], right: &[u8]) -> usize
    ensures { result ≡ shared_length left.now right.now }
{
    let mut count = 0;
    let mut one = left;
    let mut other = right;
    while let [x, more_one @ ..] = one {
        match other {
            [] => return count,
            [y, more_other @ ..] => {
                if *x != *y {
                    return count;
                }
                count += 1;
                one = more_one;
                other = more_other;
            }
        }
    }
    count
}

/// What stands behind the word at the front of the bytes.
fn after_word<'a>(word: &[u8], bytes: &'a [u8]) -> Option<&'a [u8]>
    ensures { MatchOption result (after word.now bytes.now ≡ None)
        (λ rest. after word.now bytes.now ≡ Some rest.now) }
{
    let mut rest = bytes;
    let mut wanted = word;
    while let [w, more_wanted @ ..] = wanted {
        match rest {
            [] => return None,
            [b, more @ ..] => {
                if *b != *w {
                    return None;
                }
                rest = more;
                wanted = more_wanted;
            }
        }
    }
    Some(rest)
}

/// The first of the words that stands at the front of the bytes, and the bytes behind it. Where none does, the stop is
/// the end of the longest front that a word shares.
pub fn word_at<'a, W: Word>(words: &[W], bytes: &'a [u8]) -> Result<(W, &'a [u8]), Stop>
    ensures { Gives (λ x. (x.0, x.1.now)) result (words_from W.text 0 words.now bytes.now) }
{
    let mut best = 0;
    for word in words {
        let text = word.text();
        if let Some(rest) = after_word(text, bytes) {
            return Ok((*word, rest));
        }
        best = best.max(shared_of(bytes, text));
    }
    Err(Stop::Left(bytes.len() - best))
}
