// What expressions are evaluated over.
ghost use Rattle.std.specs.Prelude.{◌≡◌};
ghost use Rattle.std.specs.Arc.{arc_value};

use crate::reads::Reads;
use rx_vars::Table;
use std::marker::Model;
use std::sync::Arc;

/// What is fixed for a body, and shared by the code of all its clauses. Contracts see both tables.
pub struct Body {
    labels: Table<u32>,
    objects: Arc<Table<u32>>,
}

impl Drop for Body {
    fn drop(self) {
        let Body {
            labels: _,
            objects: _,
        } = self;
    }
}

impl Model for Body {
    ghost use Rattle.std.specs.Arc.{arc_value};
    ghost use Rattle.rx_eval.specs.Bodies.{Body as Recorded};

    ghost Value = { Recorded };

    ghost view = { λ b. record { labels = b.labels; objects = arc_value b.objects } };
}

impl Body {
    /// What is fixed for a body with these labels, where environment symbols name these objects. A symbol stands as it is
    /// written, with its period.
    pub fn new(labels: Table<u32>, objects: Arc<Table<u32>>) -> Body
        ensures labels { result.labels ≡ labels }
        ensures objects { result.objects ≡ arc_value objects }
    {
        Body { labels, objects }
    }

    /// The labels of the body.
    pub(crate) fn labels(&self) -> &Table<u32>
        ensures { result.now ≡ self.now.labels }
    {
        &self.labels
    }

    /// The objects that environment symbols name.
    pub(crate) fn objects(&self) -> &Table<u32>
        ensures { result.now ≡ self.now.objects }
    {
        &self.objects
    }
}

/// What an evaluation reads besides its code.
pub struct Facts {
    /// What built-in functions read, DIGITS among it.
    pub frame: rx_builtin::Facts,
    /// The values of the variables that the code names. One that has none has no value here. They are found at once where they
    /// stand in the order of the code's names.
    pub reads: Reads,
    /// Whether a variable without a value raises NOVALUE.
    pub novalue: bool,
}

impl Drop for Facts {
    fn drop(self) {
        let Facts {
            frame: _,
            reads: _,
            novalue: _,
        } = self;
    }
}
