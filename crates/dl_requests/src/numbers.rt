//! The numbers in names and paths.

ghost use Rattle.std.specs.Prelude.{◌≡◌, ◌≤◌, length};
ghost use Rattle.dl_rules_stream.specs.Listings.{digits_number, number_behind, member_in, segment_in};

use dl_formats::children::{read_member, read_segment};
use dl_formats::segment_name::SegmentName;

/// The number that at most ten digits spell.
fn number_of(digits: &[u8]) -> u64
    requires { length digits.now ≤ 10 }
    ensures { result ≡ digits_number digits.now }
{
    let mut number: u64 = 0;
    for digit in digits {
        number = number * 10 + u64::from(digit.saturating_sub(b'0'));
    }
    number
}

/// The number that the last ten bytes of a path spell, as of a node that was made with a counted name.
pub fn number_behind(path: &[u8]) -> u64
    ensures { result ≡ number_behind path.now }
{
    let start = path.len().saturating_sub(10);
    number_of(&path[start..])
}

/// The number of the member of a stream's lock that the name of a child says, where it says one.
pub fn member_in(name: &[u8]) -> Option<u64>
    ensures { result ≡ member_in name.now }
{
    read_member(name)
}

/// What the name of a child of a stream's node `segs` says of a segment, where it says something.
pub fn segment_in(name: &[u8]) -> Option<SegmentName>
    ensures { result ≡ segment_in name.now }
{
    read_segment(name)
}
