//! Bytes sent to a sink, in whatever pieces it takes.

ghost use Rattle.std.specs.Prelude.{◌≡◌, ◌≤◌, option_map, OnOk, OnErr};
ghost use Rattle.kira_outside.specs.Faults.{Rose};
ghost use Rattle.kira_outside.specs.Stream.{appended, all_flushed};
ghost use Rattle.table_text.specs.Sending.{sent, IsPrefixSent};

use kira_outside::Sink;
use thiserror::Error;

/// A write or a flush failed. The sink's count of faults rose, and a prefix of the bytes was written.
#[derive(Clone, Copy, Debug, PartialEq, Eq, Error)]
#[error("writing failed")]
pub struct WriteFault;

/// Writes all the bytes and then flushes. It takes no memory.
pub fn send<O: Sink>(bytes: &[u8], out: &mut O) -> Result<(), WriteFault>
    ensures sent { OnOk result (O.told out.new ≡ option_map (sent bytes.now) (O.told out.old)) }
    ensures prefix { OnErr result (IsPrefixSent bytes.now (O.told out.old) (O.told out.new)) }
    ensures failed { OnErr result (Rose (O.faults out.old) (O.faults out.new)) }
    ensures ok_count { OnOk result (O.faults out.new ≡ O.faults out.old) }
    ensures never_falls { O.faults out.old ≤ O.faults out.new }
{
    write_all(bytes, out)?;
    match out.flush() {
        Ok(()) => Ok(()),
        Err(_) => Err(WriteFault),
    }
}

/// Writes all the bytes, and doesn't flush. It takes no memory.
pub fn write_all<O: Sink>(bytes: &[u8], out: &mut O) -> Result<(), WriteFault>
    ensures written { OnOk result (O.told out.new ≡ option_map (appended bytes.now) (O.told out.old)) }
    ensures prefix { OnErr result (IsPrefixSent bytes.now (O.told out.old) (O.told out.new)) }
    ensures failed { OnErr result (Rose (O.faults out.old) (O.faults out.new)) }
    ensures ok_count { OnOk result (O.faults out.new ≡ O.faults out.old) }
    ensures never_falls { O.faults out.old ≤ O.faults out.new }
{
    let mut written = 0;
    while written < bytes.len() {
        match out.write(&bytes[written..]) {
            Ok(count) => written += count,
            Err(_) => return Err(WriteFault),
        }
    }
    Ok(())
}
