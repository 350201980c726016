// A file as a whole.
ghost use Rattle.std.specs.Prelude.{◌≡◌, ◌<◌, ◌≤◌, IfOk, length, vec_len};
ghost use Rattle.std.specs.Option.{option_map};
ghost use Rattle.outside.specs.Files.{bytes_of};
ghost use Rattle.certify.specs.Run.{HasReadCause, ReadsTold};

use crate::fault::{Fault, MAX_BYTES};
use outside::Inputs;
use std::alloc::{AllocError, Global};

// How many bytes are asked for at once.
const PIECE_BYTES: usize = 1 << 16;

/// All bytes of the file of this name, at most 2^24.
pub(crate) fn read_file<I: Inputs>(
    alloc: Global,
    inputs: &mut I,
    name: &str,
) -> Result<Vec<u8>, Fault>
    ensures answer { ReadsTold
        (option_map (λ files. bytes_of files name.now) (I.files inputs.old)) result }
    ensures cause { HasReadCause (I.faults inputs.old) (I.faults inputs.new) result }
{
    let mut buffer = zeros(alloc, PIECE_BYTES)?;
    if inputs.start(name).is_err() {
        return Err(Fault::Read);
    }
    read_started(alloc, inputs, buffer.as_mut_slice())
}

// So many bytes, each 0.
fn zeros(alloc: Global, count: usize) -> Result<Vec<u8>, AllocError>
    ensures { IfOk result (λ bytes. vec_len bytes ≡ count) }
{
    vec![in alloc; 0u8; count]
}

// The same of the file that was started, through this buffer.
fn read_started<I: Inputs>(
    alloc: Global,
    inputs: &mut I,
    buffer: &mut [u8],
) -> Result<Vec<u8>, Fault>
    requires { (0 < length buffer.old) × (length buffer.old ≤ PIECE_BYTES) }
    ensures answer { ReadsTold (I.left inputs.old) result }
    ensures cause { HasReadCause (I.faults inputs.old) (I.faults inputs.new) result }
{
    let mut bytes = Vec::new(alloc);
    'pieces: loop {
        let Ok(count) = inputs.read(buffer) else {
            return Err(Fault::Read);
        };
        if count == 0 {
            return Ok(bytes);
        }
        if count > MAX_BYTES - bytes.len() {
            return Err(Fault::TooLong);
        }
        bytes.extend_from_slice(&buffer[..count])?;
    }
}
