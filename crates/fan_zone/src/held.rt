ghost use Rattle.std.specs.Prelude.{◌≡◌, ◌<◌, ◌++◌, [], ◌∷◌, length};

use arrayvec::ArrayVec;
use bmc_base::Milli;
use cfg_json::ItemId;
use std::marker::Model;

/// What a controller does in its zone. A thermal one has a setpoint of its own, within 1,000,000 units of 0.
#[derive(Clone, Copy, Debug, PartialEq, Eq)]
pub enum Role {
    /// It commands fans, at each tick.
    Fan,
    /// It raises the setpoint of its zone, by the greatest of its inputs.
    Temp(Milli),
    /// It raises the setpoint of its zone, by the least of its inputs.
    Margin(Milli),
}

/// The inputs of a controller: for each the slot of the sensor that holds the name, if one does.
#[derive(Drop)]
pub struct Inputs {
    slots: ArrayVec<Option<usize>, 16>,
}

impl Model for Inputs {
    ghost use Rattle.std.specs.Prelude.{List, Option, ℕ};

    ghost Value = { List (Option ℕ) };

    ghost view = { λ i. i.slots.items };
}

impl Inputs {
    /// Returns no inputs.
    pub(crate) fn new() -> Inputs
        ensures { result ≡ [] }
    {
        Inputs {
            slots: ArrayVec::new(),
        }
    }

    /// Appends an input. There is room for 16.
    pub(crate) fn push(&mut self, slot: Option<usize>)
        requires { length self.old < 16 }
        ensures { self.new ≡ self.old ++ slot ∷ [] }
    {
        self.slots.push(slot);
    }

    /// Borrows the slots.
    pub(crate) fn as_slice(&self) -> &[Option<usize>]
        ensures { result.now ≡ self.now }
    {
        self.slots.as_slice()
    }
}

/// A live controller, with the box that it holds.
#[derive(Drop)]
pub struct Held {
    /// Which item it is.
    pub id: ItemId,
    /// What it does.
    pub role: Role,
    /// The number of its zone.
    pub zone: usize,
    /// The inputs that it reads, at most 16.
    pub inputs: Inputs,
    /// The number of its box.
    pub number: usize,
    /// How many ticks of its run there were, modulo 10.
    pub age: u8,
}

/// The box that a controller holds, and its age.
#[derive(Clone, Copy, Debug, PartialEq, Eq)]
pub struct Seat {
    /// The number of the box.
    pub number: usize,
    /// How many ticks of its run there were, modulo 10.
    pub age: u8,
}
