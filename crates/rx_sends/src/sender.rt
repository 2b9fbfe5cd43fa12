// What a message reads of its sender.
ghost use Rattle.std.specs.Prelude.{◌≡◌, ◌≤◌, option_map};
ghost use Rattle.rx_frames.specs.Activities.{IsBegun};
ghost use Rattle.rx_sends.specs.Senders as spec;

use rx_frames::{Frame, Stacks};

/// What a message reads of its sender, and of the room that there is.
#[derive(Clone, Copy)]
pub struct Sender {
    /// The object of the frame on top.
    pub object: Option<u32>,
    /// DIGITS of that frame.
    pub digits: u8,
    /// Whether the activity has 1,000 frames.
    pub is_deep: bool,
    /// Whether there are 65,536 activities.
    pub is_full: bool,
}

// The object of a frame: a method's has one.
fn object_of(frame: &Frame) -> Option<u32>
    ensures { result ≡ spec.object_of frame.now }
{
    let own = frame.own()?;
    Some(own.object)
}

/// What a message of an activity reads of it.
pub(crate) fn sender_of(stacks: &Stacks, a: u32) -> Sender
    requires begun { IsBegun stacks.now a }
    ensures sender { result ≡ spec.sender_of stacks.now a }
    ensures least { 1 ≤ result.digits }
    ensures most { result.digits ≤ 18 }
{
    let is_full = stacks.count() as usize == Stacks::MOST;
    match stacks.top(a) {
        None => Sender {
            object: None,
            digits: 9,
            is_deep: false,
            is_full,
        },
        Some(frame) => Sender {
            object: object_of(frame),
            digits: frame.digits(),
            is_deep: stacks.height(a) as usize == Stacks::DEEPEST,
            is_full,
        },
    }
}
