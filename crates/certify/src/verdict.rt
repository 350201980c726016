/// What a claimed order is found to be: legal, or what is wrong first and where. Places of the
/// order and numbers of calls count from 1.
#[derive(Clone, Copy, Debug, PartialEq, Eq)]
pub enum Verdict {
    /// Each call stands in the order once, each caller's calls stand in its own order, and each
    /// answer is that of a plain set at its place.
    Legal,
    /// No call has the number at this place.
    Unknown {
        /// The place in the order, from 1.
        place: u64,
    },
    /// An earlier place has the same number.
    Repeated {
        /// The place in the order, from 1.
        place: u64,
    },
    /// A call that the same caller made before stands at no earlier place.
    Early {
        /// The place in the order, from 1.
        place: u64,
    },
    /// The answer isn't that of a plain set after the calls at the earlier places.
    Wrong {
        /// The place in the order, from 1.
        place: u64,
    },
    /// Nothing is wrong at any place, but this call stands at none.
    Missing {
        /// The number of the call, from 1.
        number: u64,
    },
}
