ghost use Rattle.std.specs.Prelude.{◌≡◌, ℕ, List, Result};
ghost use Rattle.dl_fields.specs.declared.fault.Fault.{Fault};
ghost use Rattle.dl_formats.specs.Reading.{Reads, node_from, fault_at, node_at};

use crate::fault::MetaBytesFault;
use crate::fields::read_u8_between;
use dl_fields::fault::Fault;

/// The fields of a kind of node, behind the version of its bytes.
pub(crate) trait Fields: Copy {
    /// The reading of the fields at the front of the bytes.
    ghost from: { List ℕ → Result (Self × List ℕ) Fault };

    /// The fields at the front, and the bytes behind them.
    fn read(bytes: &[u8]) -> Result<(Self, &[u8]), Fault>
        ensures { Reads (λ x. (x.0, x.1.now)) result (from bytes.now) };
}

/// The fields that all the bytes of a node spell.
fn read_whole<N: Fields>(bytes: &[u8]) -> Result<N, Fault>
    ensures { Reads (λ x. x) result (node_from N.from bytes.now) }
{
    let (_version, fields) = read_u8_between(1, 1, bytes)?;
    match N::read(fields) {
        Ok((value, rest)) => {
            if rest.is_empty() {
                Ok(value)
            } else {
                Err(Fault::Long(rest.len()))
            }
        }
        Err(fault) => Err(fault),
    }
}

/// A fault with its place among so many bytes. The first byte is the version.
fn fault_at(size: usize, fault: Fault) -> MetaBytesFault
    ensures { result ≡ fault_at size fault }
{
    match fault {
        Fault::Short(left) => MetaBytesFault::Short {
            at: size.saturating_sub(left),
        },
        Fault::Bad(left) => {
            if left == size {
                MetaBytesFault::BadVersion { at: 0 }
            } else {
                MetaBytesFault::BadKind {
                    at: size.saturating_sub(left),
                }
            }
        }
        Fault::Long(left) => MetaBytesFault::Long {
            at: size.saturating_sub(left),
        },
    }
}

/// The fields that all the bytes of a node spell, or the first fault in the order of the bytes.
pub(crate) fn read_node<N: Fields>(bytes: &[u8]) -> Result<N, MetaBytesFault>
    ensures { result ≡ node_at N.from bytes.now }
{
    match read_whole::<N>(bytes) {
        Ok(value) => Ok(value),
        Err(fault) => Err(fault_at(bytes.len(), fault)),
    }
}
