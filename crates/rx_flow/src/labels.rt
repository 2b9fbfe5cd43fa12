// The table of the labels of a body.
ghost use Rattle.std.specs.Prelude.{◌≡◌, length, OnOk};
ghost use Rattle.std.specs.Option.{option_copied};
ghost use Rattle.rx_flow.specs.Rules.{rule};
ghost use Rattle.rx_flow.specs.Todo.{label_of};
ghost use Rattle.rx_flow.specs.Labels.{with_label};

use crate::code::{Code, here};
use rx_clause_tree::{Clause, ClauseKind, Simple};
use rx_tree::{OutOfMemory, Text};
use rx_vars::Table;

/// The name of a clause that is a label.
pub fn label(clause: &Clause) -> Option<&Text>
    ensures { option_copied result ≡ label_of (rule clause.now) }
{
    let ClauseKind::Simple(simple) = &clause.kind else {
        return None;
    };
    let Simple::Label(name) = simple else {
        return None;
    };
    Some(name)
}

/// Puts the label that a clause may be into the table, with the place that comes next in the code. Of two labels with the
/// same name the first one stays.
pub fn note_label(code: &Code, labels: &mut Table<u32>, clause: &Clause) -> Result<(), OutOfMemory>
    ensures { OnOk result
        (labels.new ≡ with_label (label_of (rule clause.now)) (length code.now.ops) labels.old) }
{
    match label(clause) {
        None => Ok(()),
        Some(name) => {
            let place = here(code)?;
            labels.add(name.bytes(), place)
        }
    }
}
