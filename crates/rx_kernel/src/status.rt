// The status of a run.
ghost use Rattle.std.specs.Prelude.{◌≡◌};
ghost use Rattle.rx_machine.specs.End.{status_finished, status_value};
ghost use Rattle.rx_kernel.specs.States.{ending_of};

use crate::main_end::MainEnd;
use rx_tree::Value;
use rx_whole::{Numeral, read_number};

/// The most that a status is which a program gives itself.
const MOST_STATUS: i64 = 239;

/// The status where the main program ended by an error.
const FAILED: u8 = 249;

// The status for a value: the number that it is, from 0 to 239, or else 0.
fn status_value(value: &Value) -> u8
    ensures { result ≡ status_value value.now }
{
    let Value::Str(text) = value else {
        return 0;
    };
    match read_number(text.bytes()) {
        Numeral::Whole(number) if number >= 0 && number <= MOST_STATUS => number as u8,
        _ => 0,
    }
}

/// The status of a run whose activities have all ended.
pub(crate) fn status_finished(main: &MainEnd) -> u8
    ensures { result ≡ status_finished (ending_of main.now) }
{
    match main {
        MainEnd::NoValue => 0,
        MainEnd::Given(value) => status_value(value),
        MainEnd::Failed(_) => FAILED,
    }
}
