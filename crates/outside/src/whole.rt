// Writing all of some bytes.
ghost use Rattle.std.specs.Prelude.{ℕ, ◌≤◌, length, take, OnOk, OnErr};
ghost use Rattle.std.specs.Io.KnownBytes.{Appends};
ghost use Rattle.outside.specs.Faults.{HasCause};

use crate::{Failed, Sink};

/// Writes until the sink has taken all bytes. After `Failed` it has taken a front of them.
pub fn write_whole<O: Sink>(out: &mut O, bytes: &[u8]) -> Result<(), Failed>
    ensures whole { OnOk result (Appends (O.written out.old) (O.written out.new) bytes.now) }
    ensures front { OnErr result ((n : ℕ) × (n ≤ length bytes.now)
        × Appends (O.written out.old) (O.written out.new) (take n bytes.now)) }
    ensures cause { HasCause (O.faults out.old) (O.faults out.new) result }
{
    let mut taken = 0;
    while taken < bytes.len() {
        taken += out.write(&bytes[taken..])?;
    }
    Ok(())
}
