//! What a child says behind its last message.

/// How many bytes the length of a frame has.
const HEAD: u64 = 4;

/// How many bytes there are, and how many whole frames.
#[derive(Clone, Copy, Drop)]
pub(crate) struct LeftOver {
    pub(crate) bytes: u64,
    pub(crate) frames: u64,
    /// How many bytes of the frame's length came, and what they say so far.
    head: u64,
    length: u64,
    /// How many of its bytes are still to come.
    missing: u64,
}

impl LeftOver {
    pub(crate) fn new() -> Self {
        LeftOver {
            bytes: 0,
            frames: 0,
            head: 0,
            length: 0,
            missing: 0,
        }
    }

    /// Counts these bytes too.
    pub(crate) fn count(&mut self, bytes: &[u8]) {
        for byte in bytes {
            self.count_one(*byte);
        }
    }

    fn count_one(&mut self, byte: u8) {
        self.bytes = self.bytes.saturating_add(1);
        if self.head < HEAD {
            self.head += 1;
            self.length = self.length.wrapping_mul(256).wrapping_add(u64::from(byte));
            self.missing = self.length;
        } else {
            self.missing = self.missing.saturating_sub(1);
        }
        if self.head == HEAD && self.missing == 0 {
            self.frames = self.frames.saturating_add(1);
            self.head = 0;
            self.length = 0;
        }
    }
}
