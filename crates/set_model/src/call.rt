// The three calls on a set.
ghost use Rattle.std.specs.Prelude.{◌≡◌};
ghost use Rattle.set_model.specs.Call.{answer_where};

/// What a caller asks of a set of keys, at one key.
#[derive(Clone, Copy, Debug, PartialEq, Eq)]
pub enum Call {
    /// Adds the key. The answer is whether it was absent.
    Insert,
    /// Takes the key away. The answer is whether it was present.
    Remove,
    /// Changes nothing. The answer is whether the key is present.
    Contains,
}

impl Call {
    /// The answer of a set in which the key is present or not.
    pub fn answer(self, present: bool) -> bool
        ensures { result ≡ answer_where self present }
    {
        match self {
            Call::Insert => !present,
            Call::Remove | Call::Contains => present,
        }
    }
}
