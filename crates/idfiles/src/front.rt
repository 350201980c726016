// Bytes of one kind at the front of others. A read takes them at once, block by block.
ghost use Rattle.std.specs.Prelude.{◌≡◌, ◌+◌, ◌<◌, ◌≤◌, true, length, take, slice_index};
ghost use Rattle.std.specs.List.{list_all};
ghost use Rattle.idfiles.specs.Kinds.{is_of};

// A block is judged whole, without a branch for each of its bytes.
const BLOCK_BYTES: usize = 64;

/// What bytes that stand together have in common.
#[derive(Clone, Copy)]
pub enum ByteKind {
    /// They are LFs.
    Lf,
    /// They are spaces and tabs.
    Blank,
    /// None is an LF.
    Inner,
}

impl ByteKind {
    /// Whether the byte is of this kind.
    pub fn has(self, byte: u8) -> bool
        ensures { result ≡ is_of self byte }
    {
        match self {
            ByteKind::Lf => byte == b'\n',
            ByteKind::Blank => byte == b' ' || byte == b'\t',
            ByteKind::Inner => byte != b'\n',
        }
    }
}

/// How many bytes at the front are of the kind.
pub fn leading(bytes: &[u8], kind: ByteKind) -> usize
    ensures within { result ≤ length bytes.now }
    ensures all { list_all (is_of kind) (take result bytes.now) ≡ true }
    ensures some { 0 < length bytes.now → is_of kind (slice_index bytes.now 0) ≡ true
        → 0 < result }
{
    let blocks = leading_blocks(bytes, kind);
    blocks + leading_bytes(&bytes[blocks..], kind)
}

// The same by whole blocks.
fn leading_blocks(bytes: &[u8], kind: ByteKind) -> usize
    ensures within { result ≤ length bytes.now }
    ensures all { list_all (is_of kind) (take result bytes.now) ≡ true }
{
    let mut at = 0;
    while bytes.len() - at >= BLOCK_BYTES && all_of(&bytes[at..at + BLOCK_BYTES], kind) {
        at += BLOCK_BYTES;
    }
    at
}

// Whether all bytes are of the kind.
fn all_of(block: &[u8], kind: ByteKind) -> bool
    ensures { result ≡ list_all (is_of kind) block.now }
{
    let mut all = true;
    for byte in block {
        all &= kind.has(*byte);
    }
    all
}

// The same byte by byte.
fn leading_bytes(bytes: &[u8], kind: ByteKind) -> usize
    ensures within { result ≤ length bytes.now }
    ensures all { list_all (is_of kind) (take result bytes.now) ≡ true }
    ensures some { 0 < length bytes.now → is_of kind (slice_index bytes.now 0) ≡ true
        → 0 < result }
{
    for (count, byte) in bytes.iter().enumerate() {
        if !kind.has(*byte) {
            return count;
        }
    }
    bytes.len()
}
