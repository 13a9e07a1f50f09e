ghost use Rattle.std.specs.Prelude.{◌≡◌, ◌≤◌, false, Option, OnOk, IfErr};
ghost use Rattle.dl_types.specs.declared.refusal.Refusal.{Refusal};
ghost use Rattle.dl_types.specs.declared.txid.TheConstants.{MAX_TXID};
ghost use Rattle.dl_rules_stream.specs.LogWriters.{writer_fault, longest_payload};
ghost use Rattle.dl_writer.specs.Facts.{IsBookie};
ghost use Rattle.dl_writer.specs.Refusals.{record_fault};

use dl_types::bookie::BookieId;
use dl_types::payload::MAX_PAYLOAD;
use dl_types::refusal::Refusal;
use dl_types::txid::TxId;

/// A call is refused where the close has begun, and else where the ledger is fenced.
pub(crate) fn check_writer(is_closing: bool, fenced: Option<u8>) -> Result<(), Refusal>
    requires { IsBookie fenced }
    ensures open { OnOk result (is_closing ≡ false) }
    ensures unfenced { OnOk result (fenced ≡ None) }
    ensures fault { IfErr result (λ refusal. writer_fault is_closing fenced ≡ Some refusal) }
{
    if is_closing {
        return Err(Refusal::NoWriter);
    }
    match fenced {
        Some(number) => Err(Refusal::Fenced {
            bookie: BookieId::new(number),
        }),
        None => Ok(()),
    }
}

/// A record is refused where its payload is too long, and else where its id is below the last one.
pub(crate) fn check_record(length: u64, last: TxId, given: TxId) -> Result<(), Refusal>
    ensures free { OnOk result ((other : Option Refusal)
        → record_fault length last given other ≡ other) }
    ensures short { OnOk result (length ≤ longest_payload) }
    ensures order { OnOk result (last ≤ given) }
    ensures bound { OnOk result (given ≤ MAX_TXID) }
    ensures fault { IfErr result (λ refusal. (other : Option Refusal)
        → record_fault length last given other ≡ Some refusal) }
{
    if length > MAX_PAYLOAD {
        return Err(Refusal::TooLong { length });
    }
    if given.number() < last.number() {
        return Err(Refusal::TxidBack { last, given });
    }
    Ok(())
}
