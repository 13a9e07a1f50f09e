//! The numbers of members, in their names.

ghost use Rattle.std.specs.Prelude.{◌≡◌};
ghost use Rattle.dl_rules_stream.specs.Locks.{least_of};

use dl_requests::numbers::member_in;
use dl_types::path::Path;

/// The least of this number and those of the members of these names.
pub(crate) fn least_of(number: u64, names: &[Path]) -> u64
    ensures { result ≡ least_of number names.now }
{
    let mut least = number;
    for name in names {
        if let Some(other) = member_in(name.as_slice()) {
            if other < least {
                least = other;
            }
        }
    }
    least
}
