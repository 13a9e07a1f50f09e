ghost use Rattle.std.specs.Prelude.{◌≡◌, ◌+◌, ◌<◌, ◌^◌, IfOk};
ghost use Rattle.dl_writer.specs.Sending.{pending_of, nth_origin, row_at};

use dl_types::dlsn::Dlsn;
use dl_types::memory::NoMemory;
use dl_types::payload::Payload;
use dl_types::row::{Origin, Row};
use dl_types::txid::TxId;
use std::marker::Model;

/// A record that was taken and not sent yet. Contracts see it as the rule's.
#[derive(Debug, Drop)]
pub(crate) struct Taken {
    pub origin: Origin,
    pub txid: TxId,
    pub payload: Payload,
}

impl Model for Taken {
    ghost use Rattle.dl_rules_stream.specs.LogWriters.{Pending};

    ghost Value = { Pending };

    ghost view = { λ t. record { origin = t.origin; txid = t.txid; payload = t.payload } };
}

impl Taken {
    /// A record that shares its payload; its call has so many before it from the origin on.
    pub(crate) fn new(
        origin: Origin,
        before: u32,
        txid: TxId,
        payload: &Payload,
    ) -> Result<Taken, NoMemory>
        requires { origin.call + before < 2 ^ 32 }
        ensures { IfOk result
            (λ taken. taken ≡ pending_of (nth_origin origin before) txid payload.now) }
    {
        let payload = payload.share()?;
        let origin = Origin {
            client: origin.client,
            call: origin.call + before,
        };
        Ok(Taken {
            origin,
            txid,
            payload,
        })
    }

    /// The record at its place.
    pub(crate) fn at(&self, place: Dlsn) -> Result<Row, NoMemory>
        ensures { IfOk result (λ row. row ≡ row_at place self.now) }
    {
        let payload = self.payload.share()?;
        Ok(Row {
            place,
            txid: self.txid,
            payload,
            origin: self.origin,
        })
    }
}
