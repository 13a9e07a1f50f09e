ghost use Rattle.std.specs.Prelude.{◌≡◌, MatchOption, false};
ghost use Rattle.dl_text.specs.TextLines.{has_feed, IsFirstLine};

use memchr::memchr;

/// The first line of a text with its line feed, and what follows it; none where no line feed is there.
pub fn first_line(text: &[u8]) -> Option<(&[u8], &[u8])>
    ensures { MatchOption result (has_feed text.now ≡ false)
        (λ x. IsFirstLine text.now x.0.now x.1.now) }
{
    match memchr(b'\n', text) {
        None => None,
        Some(feed) => Some(text.split_at(feed + 1)),
    }
}
