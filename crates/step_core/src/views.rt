// What a pass knows, as contracts see it. No value of these types is made.
use crate::Published;
use arena::Held;
use set_model::Entry;
use std::collections::LinkedList;

/// What never changes in a round.
pub struct RoundFacts {
    /// The number of passes.
    pub seats: u64,
    /// The number of words.
    pub cap: u64,
    /// The number of opening words.
    pub opened: u64,
    /// The keys of the opening, rising.
    pub keys: LinkedList<u64>,
}

/// A published block that a pass knows.
pub struct Known {
    /// Its address.
    pub at: u64,
    /// The block, with all its content.
    pub block: Published,
}

/// A load of a bucket word in the open turn.
pub struct BucketLoad {
    /// The address of the generation.
    pub at: u64,
    /// The bucket, from 0.
    pub bucket: u64,
    /// The word that was loaded.
    pub word: u64,
}

/// A turn that a pass has open, from its load of HEAD on.
pub struct OpenTurn {
    /// The head that it loaded.
    pub head: u64,
    /// A number of exchanges that the other passes had won by then.
    pub seen: u64,
    /// Its loads of bucket words so far, the latest first.
    pub loads: LinkedList<BucketLoad>,
}

/// A load of an announce word.
pub struct AnnounceLoad {
    /// The number of the pass whose word it is.
    pub pass: u64,
    /// The word that was loaded.
    pub word: u64,
    /// How many events the round had then.
    pub events: u64,
    /// How many turns the pass had lost then.
    pub lost: u64,
}

/// A ticket that was drawn for the block of an operation.
pub struct BlockTicket {
    /// The address of the block.
    pub block: u64,
    /// The ticket.
    pub ticket: u64,
}

/// How many steps of each kind a pass has made.
pub struct StepCounts {
    /// Loads of HEAD.
    pub head_loads: u64,
    /// Loads of sealed words.
    pub sealed_loads: u64,
    /// Loads of bucket words.
    pub bucket_loads: u64,
    /// Draws.
    pub draws: u64,
    /// Writes into blocks in hand.
    pub writes: u64,
    /// Exchanges of rows, won or lost.
    pub row_swaps: u64,
    /// Exchanges that fill a nil bucket, won or lost.
    pub fills: u64,
    /// Freezes of bucket words.
    pub freezes: u64,
    /// Exchanges of HEAD, won or lost.
    pub head_swaps: u64,
    /// Notes made. Each is one load of HEAD that isn't among the others.
    pub notes: u64,
    /// Loads of HEAD by which it learned from notes, two for each note. They aren't among the others.
    pub learned: u64,
}

/// A row of which a pass knows: at some prefix of the history, no shorter than the front, the set
/// had of the keys of two buckets what the row has. Bucket 0 of exponent 0 has all keys.
pub struct Mark {
    /// The address of the row.
    pub row: u64,
    /// The front.
    pub front: LinkedList<Entry>,
    /// The exponent of the first bucket's generation.
    pub exponent: u64,
    /// The first bucket, from 0.
    pub bucket: u64,
    /// The exponent of the second bucket's generation.
    pub other_exponent: u64,
    /// The second bucket, from 0.
    pub other_bucket: u64,
}

/// A generation that a pass loaded as the head.
pub struct HeadLoad {
    /// Its address.
    pub at: u64,
    /// The front that the pass had then.
    pub front: LinkedList<Entry>,
}

/// A bucket that a pass found nil.
pub struct NilBucket {
    /// The address of the generation.
    pub at: u64,
    /// The bucket, from 0.
    pub bucket: u64,
    /// The front that the pass had then.
    pub front: LinkedList<Entry>,
}

/// A loaded bucket and an operation that was seen undecided after it: while the bucket stands, the
/// operation isn't decided.
pub struct Trial {
    /// The address of the operation.
    pub op: u64,
    /// The address of the generation.
    pub at: u64,
    /// The bucket, from 0.
    pub bucket: u64,
    /// The address of the row that its word named.
    pub row: u64,
}

/// A cell that no longer changes: the word of a frozen bucket, or a result that isn't 0.
pub struct FixedCell {
    /// The address of its block.
    pub at: u64,
    /// The number of the cell in the block, from 0.
    pub place: u64,
    /// Its word.
    pub word: u64,
}

/// A bucket that isn't nil.
pub struct FilledBucket {
    /// The address of the generation.
    pub at: u64,
    /// The bucket, from 0.
    pub bucket: u64,
}

/// What a pass did that may cost another pass a turn.
pub enum Event {
    /// The pass began a write call.
    Began {
        /// The number of the pass.
        pass: u64,
        /// The number of the pass that it helps next.
        cursor: u64,
    },
    /// The pass won an exchange of a row or of the head.
    Won {
        /// The number of the pass.
        pass: u64,
    },
    /// The pass announced an operation.
    Announced {
        /// The number of the pass.
        pass: u64,
        /// The address of the operation.
        op: u64,
    },
}

/// What a pass knows of its round. Only its own steps change it. Fields that no kind of step fills
/// yet are as a round begins: empty, 0 or None.
pub struct PassView {
    /// What never changes in the round.
    pub facts: RoundFacts,
    /// The number of the pass, from 0.
    pub number: u64,
    /// The longest front of the history that it knows.
    pub front: LinkedList<Entry>,
    /// The front of a note that it took, of which it hasn't learned yet which is longer.
    pub heard: LinkedList<Entry>,
    /// The history as far as it had come at the pass's last load of HEAD or of a bucket, at its last freeze,
    /// or at its last exchange that was won. It has an insert of each key of a known row that the opening
    /// didn't have.
    pub horizon: LinkedList<Entry>,
    /// The published blocks that it knows, the latest first.
    pub known: LinkedList<Known>,
    /// The blocks in its hands, with their words.
    pub hands: LinkedList<Held>,
    /// The sum of the lengths of all its draws.
    pub drawn: u64,
    /// The place that its draw past the end found, if it made one. It draws no more.
    pub spent: Option<u64>,
    /// The tickets that it drew and that stand in no announced operation yet.
    pub tickets: LinkedList<BlockTicket>,
    /// The address of its announced operation, until it has the operation's result.
    pub flight: Option<u64>,
    /// Its answered entries, in order.
    pub mine: LinkedList<Entry>,
    /// A number above all serials of its entries and operations.
    pub used: u64,
    /// How many exchanges of a row or of the head it won.
    pub won: u64,
    /// How many turns it lost.
    pub lost: u64,
    /// The turn that it has open.
    pub turn: Option<OpenTurn>,
    /// Its loads of announce words, the latest first.
    pub asked: LinkedList<AnnounceLoad>,
    /// The rows that it marked.
    pub marks: LinkedList<Mark>,
    /// The generations that it loaded as the head, the latest first.
    pub heads: LinkedList<HeadLoad>,
    /// The buckets that it found nil.
    pub nils: LinkedList<NilBucket>,
    /// Its trials in the open turn.
    pub trials: LinkedList<Trial>,
    /// The cells that it knows to change no more.
    pub fixed: LinkedList<FixedCell>,
    /// The buckets that it knows not to be nil.
    pub filled: LinkedList<FilledBucket>,
    /// The events of the round that it knows, the latest first.
    pub events: LinkedList<Event>,
    /// How many events the round had once its last write call had begun, or 0.
    pub begun: u64,
    /// How many exchanges it won since.
    pub won_since: u64,
    /// How many exchanges it had won when it announced its last operation.
    pub won_before: u64,
    /// How many turns it had lost then.
    pub lost_before: u64,
    /// The number of the pass that it helps in its last write call.
    pub cursor: u64,
    /// How many steps it has made.
    pub made: StepCounts,
}
