ghost use Rattle.std.specs.Prelude.{◌≡◌, ◌<◌, ◌≤◌, IfOk};
ghost use Rattle.dl_types.specs.declared.client.TheConstants.{MAX_CLIENT};
ghost use Rattle.dl_text.specs.Readers.{Gives};
ghost use Rattle.dl_text.specs.NameFields.{IsName};
ghost use Rattle.dl_schedule.specs.StepReading.{client_at};
ghost use Rattle.dl_transcript.specs.Reading.{u32_at, order_at};

use dl_text::name::name_of;
use dl_text::number::number_of;
use dl_text::stop::Stop;
use dl_types::client::MAX_CLIENT;
use dl_types::memory::NoMemory;
use dl_types::name::Name;
use std::alloc::Global;

/// The number of a client.
pub fn client_of(end: u8, bytes: &[u8]) -> Result<(u16, &[u8]), Stop>
    requires { end < 48 }
    ensures exact { Gives (λ x. (x.0, x.1.now)) result (client_at end bytes.now) }
    ensures within { IfOk result (λ x. x.0 ≤ MAX_CLIENT) }
{
    let (client, rest) = number_of(0, u64::from(MAX_CLIENT), end, bytes)?;
    Ok((client as u16, rest))
}

/// A number of 32 bits.
pub fn u32_of(end: u8, bytes: &[u8]) -> Result<(u32, &[u8]), Stop>
    requires { end < 48 }
    ensures { Gives (λ x. (x.0, x.1.now)) result (u32_at end bytes.now) }
{
    let (number, rest) = number_of(0, u64::from(u32::MAX), end, bytes)?;
    Ok((number as u32, rest))
}

/// The name of these bytes. They are a name, so that only want of memory refuses it.
pub fn name_from(alloc: Global, bytes: &[u8]) -> Result<Name, NoMemory>
    requires { IsName bytes.now }
    ensures { IfOk result (λ name. name ≡ bytes.now) }
{
    match Name::new(alloc, bytes) {
        Ok(name) => Ok(name),
        Err(_) => Err(NoMemory),
    }
}

/// A client and a stream, and the byte `end` behind them.
pub fn order_of(end: u8, bytes: &[u8]) -> Result<((u16, &[u8]), &[u8]), Stop>
    requires { end < 45 }
    ensures exact { Gives (λ x. ((x.0.0, x.0.1.now), x.1.now)) result (order_at end bytes.now) }
    ensures client { IfOk result (λ x. x.0.0 ≤ MAX_CLIENT) }
    ensures stream { IfOk result (λ x. IsName x.0.1.now) }
{
    let (client, rest) = client_of(b' ', bytes)?;
    let (stream, rest) = name_of(end, rest)?;
    Ok(((client, stream), rest))
}
