//! How far a frame is that is read.

/// What is still to come of the frame that is read. At a border nothing is.
#[derive(Clone, Copy)]
pub(crate) struct Progress {
    /// The bytes that are missing of what stands before the body.
    head: u32,
    /// The last four bytes of the head so far, which are the body's length where it has one.
    last: u32,
    has_body: bool,
    /// The bytes that are missing of the body.
    body: u32,
}

impl Progress {
    pub(crate) fn at_border() -> Self {
        Progress {
            head: 0,
            last: 0,
            has_body: false,
            body: 0,
        }
    }

    pub(crate) fn is_at_border(&self) -> bool {
        self.head == 0 && self.body == 0
    }

    /// Takes what one read gave that had room for so many bytes.
    pub(crate) fn take(&mut self, room: usize, bytes: &[u8]) {
        if self.is_at_border() {
            self.begin(room, bytes);
        } else {
            self.go_on(bytes);
        }
    }

    /// A frame of a host is read from its kind on, one byte: a start (0) has four bytes of session
    /// behind it, an arrival (1) also four of length. Any other frame is read from its length on.
    fn begin(&mut self, room: usize, bytes: &[u8]) {
        self.last = 0;
        match (room, bytes) {
            (1, [0]) => self.expect(4, false),
            (1, [1]) => self.expect(8, true),
            (1, _) => {}
            _ => {
                self.expect(4, true);
                self.go_on(bytes);
            }
        }
    }

    fn expect(&mut self, head: u32, has_body: bool) {
        self.head = head;
        self.has_body = has_body;
    }

    fn go_on(&mut self, bytes: &[u8]) {
        for byte in bytes {
            if self.head > 0 {
                self.take_of_head(*byte);
            } else {
                self.body = self.body.saturating_sub(1);
            }
        }
    }

    fn take_of_head(&mut self, byte: u8) {
        self.head = self.head.saturating_sub(1);
        self.last = self.last.wrapping_mul(256).wrapping_add(u32::from(byte));
        if self.head == 0 && self.has_body {
            self.body = self.last;
        }
    }
}
