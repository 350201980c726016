use std::collections::LinkedList;

/// A published block with all its content. No value of it is made: contracts say by it what the
/// words hold.
#[derive(Drop)]
pub enum Published {
    /// A generation.
    Generation(GenerationBlock),
    /// A row.
    Row(RowBlock),
    /// An operation.
    Op(OpBlock),
}

/// A generation: a table of buckets.
#[derive(Drop)]
pub struct GenerationBlock {
    /// It has 2^exponent buckets.
    pub exponent: u64,
    /// The address of the generation before it, or 0.
    pub predecessor: u64,
}

/// A row: the keys of one bucket.
#[derive(Drop)]
pub struct RowBlock {
    /// The exponent of the generation that it was published in.
    pub exponent: u64,
    /// The bucket of that generation, counted from 0.
    pub bucket: u64,
    /// The address of its operation, or 0.
    pub op: u64,
    /// The answer that the operation has on the row's own keys: 0 without one, 1 for false, 2 for
    /// true.
    pub ans: u64,
    /// Its keys, rising.
    pub keys: LinkedList<u64>,
}

/// An operation: an insert or a remove that its pass announced, so that others can carry it out.
#[derive(Drop)]
pub struct OpBlock {
    /// Its ticket, by which older operations are helped first.
    pub ticket: u64,
    /// Whether it inserts its key. Otherwise it removes the key.
    pub insert: bool,
    /// The key.
    pub key: u64,
    /// The number of the pass that announced it.
    pub who: u64,
    /// How many calls this pass had begun before this one. No word holds it.
    pub serial: u64,
}
