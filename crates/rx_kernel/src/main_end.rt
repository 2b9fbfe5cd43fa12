// How the main program ended.
use rx_tree::Value;

/// How the main program ended.
#[derive(Drop)]
pub enum MainEnd {
    /// It hasn't, or it gave no value.
    NoValue,
    Given(Value),
    /// By the error of this number, which nothing trapped.
    Failed(u8),
}
