// The variables of a frame.
ghost use Rattle.std.specs.Prelude.{◌≡◌, OnErr, OnOk, Some, None};
ghost use Rattle.std.specs.Option.{option_copied};
ghost use Rattle.rx_vars.specs.Names.{changed, found, with_name};
ghost use Rattle.rx_vars.specs.Variables.{home, no_variables};

use crate::names::Names;
use crate::rows::Rows;
use rx_tree::{Derived, OutOfMemory, Place, Value};
use std::alloc::Global;
use std::marker::Model;

/// The variables of a frame: their values, and the names that it exposes, each with the place where it lives. Contracts see
/// the lists of both.
pub struct Vars {
    alone: bool,
    rows: Rows,
    exposed: Names<Place>,
}

impl Drop for Vars {
    fn drop(self) {
        let Vars {
            alone: _,
            rows: _,
            exposed: _,
        } = self;
    }
}

impl Model for Vars {
    ghost use Rattle.rx_vars.specs.Variables.{Variables};

    ghost Value = { Variables };

    ghost view = { λ v. record { alone = v.alone; rows = v.rows; exposed = v.exposed } };
}

impl Vars {
    /// No variable has a value, and no name is exposed. The variables are alone where the frame doesn't share its caller's,
    /// as an internal routine without PROCEDURE does.
    pub fn new(alloc: Global, alone: bool) -> Vars
        ensures { result ≡ no_variables alone }
    {
        Vars {
            alone,
            rows: Rows::new(alloc),
            exposed: Names::new(alloc),
        }
    }

    /// The value that a name has here, wherever it lives: its own, or else for a compound its stem's.
    pub fn get(&self, name: &Derived) -> Option<&Value>
        ensures value { option_copied result ≡ found self.now.rows name.now }
    {
        self.rows.get(name)
    }

    /// Gives a name a value here, wherever it lives, or wants memory. With a stem all its compounds have this value.
    pub fn set(&mut self, name: &Derived, value: Value) -> Result<(), OutOfMemory>
        ensures ok { OnOk result
            (self.new ≡ record self.old { rows = changed self.old.rows name.now (Some value) }) }
        ensures err { OnErr result (self.new ≡ self.old) }
    {
        self.rows.change(name, Some(value))
    }

    /// Takes a name's value away here, wherever it lives, or wants memory. With a stem all its compounds lose theirs; a
    /// compound alone has its stem's value then, if there is one.
    pub fn drop_name(&mut self, name: &Derived) -> Result<(), OutOfMemory>
        ensures ok { OnOk result
            (self.new ≡ record self.old { rows = changed self.old.rows name.now None }) }
        ensures err { OnErr result (self.new ≡ self.old) }
    {
        self.rows.change(name, None)
    }

    /// Exposes a name at a place, or wants memory. A name that is exposed itself already stays where it is.
    pub fn expose(&mut self, name: &Derived, place: Place) -> Result<(), OutOfMemory>
        ensures ok { OnOk result
            (self.new ≡ record self.old { exposed = with_name self.old.exposed name.now place }) }
        ensures err { OnErr result (self.new ≡ self.old) }
    {
        self.exposed.add(name, place)
    }

    /// Where a name lives: at its place where it is exposed, itself or else with its stem, and otherwise here, or in the
    /// caller's frame where the variables aren't alone.
    pub fn place(&self, name: &Derived) -> Place
        ensures place { result ≡ home self.now name.now }
    {
        match self.exposed.get(name) {
            Some(place) => *place,
            None if self.alone => Place::Here,
            None => Place::Below,
        }
    }
}

fn crosses_threads<T: Send + Sync>(_value: &T) {}

/// A frame's variables may be sent to another thread and shared with it: this call compiles for their type alone.
pub fn vars_cross(vars: &Vars) {
    crosses_threads(vars);
}
