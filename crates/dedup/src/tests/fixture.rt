// A run over files in memory, and what it came to.
ghost use Rattle.std.specs.Prelude.{◌<◌, IfOk, IsTrue};
ghost use Rattle.outside.specs.Files.{files_of, names_differ};

use crate::{Ended, run};
use outside::{Gate, MemInputs, MemSink, OpenGate};
use std::alloc::Global;
use std::test::Fail;
use std::thread::Threads;

// The numbers of the calls that fail.
#[derive(Clone, Copy)]
pub(super) struct Fails {
    pub(super) inputs: u64,
    pub(super) out: u64,
    pub(super) faults: u64,
}

pub(super) const NONE: Fails = Fails {
    inputs: u64::MAX,
    out: u64::MAX,
    faults: u64::MAX,
};

// How much the inputs give and the sinks take in one call, and how much the sinks take in all.
#[derive(Clone, Copy)]
pub(super) struct Sizes {
    pub(super) piece: usize,
    pub(super) space: usize,
}

pub(super) const BYTES: Sizes = Sizes {
    piece: 1,
    space: 64,
};

pub(super) const PIECES: Sizes = Sizes {
    piece: 1 << 16,
    space: 1 << 16,
};

// How a run ended, and what it wrote on the out sink and on the fault sink.
#[derive(Drop)]
pub(super) struct Outcome {
    pub(super) ended: Ended,
    pub(super) out: MemSink,
    pub(super) faults: MemSink,
}

pub(super) fn sink(alloc: Global, fails: u64, sizes: Sizes) -> Result<MemSink, Fail>
    requires { 0 < sizes.piece }
{
    let space = vec![in alloc; 0u8; sizes.space]?;
    Ok(MemSink::new(space, vec![in alloc; fails]?, sizes.piece))
}

// The files `f` and `g`.
fn two_files(alloc: Global, f: &[u8], g: &[u8]) -> Result<Vec<(String, Vec<u8>)>, Fail>
    ensures { IfOk result (λ files. IsTrue (names_differ (files_of files.items))) }
{
    let mut files = Vec::new(alloc);
    files.push((String::from_str(alloc, "f")?, f.to_vec(alloc)?))?;
    files.push((String::from_str(alloc, "g")?, g.to_vec(alloc)?))?;
    Ok(files)
}

// A run over the files `f` and `g`, read one byte a call, with sinks that take one byte a call.
pub(super) fn run_on(
    rt: &(impl Threads + Sync),
    alloc: Global,
    words: &[&str],
    f: &[u8],
    g: &[u8],
    fails: &Fails,
) -> Result<Outcome, Fail> {
    run_sized(rt, alloc, words, (f, g), fails, BYTES)
}

// The same with other sizes.
pub(super) fn run_sized(
    rt: &(impl Threads + Sync),
    alloc: Global,
    words: &[&str],
    files: (&[u8], &[u8]),
    fails: &Fails,
    sizes: Sizes,
) -> Result<Outcome, Fail>
    requires { 0 < sizes.piece }
{
    run_gated(rt, alloc, words, files, fails, (sizes, &OpenGate))
}

// The same under a gate.
pub(super) fn run_gated<G: Gate>(
    rt: &(impl Threads + Sync),
    alloc: Global,
    words: &[&str],
    files: (&[u8], &[u8]),
    fails: &Fails,
    under: (Sizes, &G),
) -> Result<Outcome, Fail>
    requires { 0 < under.0.piece }
{
    let (sizes, gate) = under;
    let mut owned = Vec::new(alloc);
    for word in words {
        owned.push(String::from_str(alloc, word)?)?;
    }
    let files = two_files(alloc, files.0, files.1)?;
    let mut inputs = MemInputs::new(files, vec![in alloc; fails.inputs]?, sizes.piece);
    let mut out = sink(alloc, fails.out, sizes)?;
    let mut faults = sink(alloc, fails.faults, sizes)?;
    let ended = run(rt, alloc, &owned, &mut inputs, &mut out, &mut faults, gate);
    Ok(Outcome { ended, out, faults })
}
