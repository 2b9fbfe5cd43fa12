// Frames that await no answer, whatever they send.
use rx_tree::OutOfMemory;
use std::alloc::Global;

/// A frame, by its activity and how many frames that has up to it.
#[derive(Clone, Copy, PartialEq, Eq)]
pub struct FrameAt {
    pub activity: u32,
    pub height: u32,
}

/// The frames that messages don't make await an answer.
pub struct NeverAwaiting {
    frames: Vec<FrameAt>,
}

impl Drop for NeverAwaiting {
    fn drop(self) {
        let NeverAwaiting { frames: _ } = self;
    }
}

impl NeverAwaiting {
    /// There is no such frame.
    pub fn new(alloc: Global) -> NeverAwaiting {
        NeverAwaiting {
            frames: Vec::new(alloc),
        }
    }

    /// Whether a frame is one of them.
    pub fn has(&self, frame: FrameAt) -> bool {
        self.frames.contains(&frame)
    }

    /// A frame is one of them, or is none any more.
    pub fn set(&mut self, frame: FrameAt, never: bool) -> Result<(), OutOfMemory> {
        self.frames.retain(|other| *other != frame);
        if never {
            self.frames.push(frame)?;
        }
        Ok(())
    }
}
