//! Readers of the names of the children of a stream's nodes `segs` and `lock`.

ghost use Rattle.std.specs.Prelude.{◌≡◌, ℕ, Some, IfSome};
ghost use Rattle.dl_fields.specs.Digits.{HasTenDigits};
ghost use Rattle.dl_formats.specs.Children.{segment_name, IsSegmentName, member_name};

use crate::segment_name::SegmentName;
use dl_fields::digits::read_ten_digits;

/// What the name of a child of `segs` says of a segment. A name of another form says nothing, and neither do ten zeros.
pub fn read_segment(name: &[u8]) -> Option<SegmentName>
    ensures found { IfSome result (λ segment.
        IsSegmentName segment × (name.now ≡ segment_name segment)) }
    ensures only { (segment : SegmentName) → IsSegmentName segment → name.now ≡ segment_name segment
        → result ≡ Some segment }
{
    match name {
        [] => None,
        [letter, digits @ ..] => {
            let segment = read_ten_digits(digits)?;
            if segment == 0 {
                None
            } else if *letter == b'p' {
                Some(SegmentName::Progress { segment })
            } else if *letter == b'c' {
                Some(SegmentName::Completed { segment })
            } else {
                None
            }
        }
    }
}

/// The number of the member that the name of a child of `lock` says. A name of another form says none.
pub fn read_member(name: &[u8]) -> Option<u64>
    ensures found { IfSome result (λ member.
        HasTenDigits member × (name.now ≡ member_name member)) }
    ensures only { (member : ℕ) → HasTenDigits member → name.now ≡ member_name member
        → result ≡ Some member }
{
    match name {
        [letter, dash, digits @ ..] => {
            if *letter == b'm' && *dash == b'-' {
                read_ten_digits(digits)
            } else {
                None
            }
        }
        _ => None,
    }
}
