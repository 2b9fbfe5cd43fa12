// What the report says of a run.

/// A note of a run, for its report.
#[derive(Clone, Copy, Debug, PartialEq, Eq)]
pub enum Note {
    /// An activity ended by an error that nothing trapped: the error's number, the line of the clause that raised it
    /// (0 where no clause did), and the activity's number.
    Error {
        number: u8,
        line: u32,
        activity: u32,
    },
}
