use crate::SeatView;
use atomic_table::Badge;
use std::marker::Model;

/// A front of the history, which contracts see as a list of entries. It has no bytes.
#[derive(Drop)]
pub struct Front {
    pub(crate) badge: Badge<SeatView>,
}

impl Model for Front {
    ghost use Rattle.std.specs.Prelude.{List};
    ghost use Rattle.set_model.specs.declared.entry.Entry.{Entry};

    ghost Value = { List Entry };

    ghost use Rattle.cells.specs.Modeled.{front_value};

    ghost view = { front_value };
}
