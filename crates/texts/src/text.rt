// Bytes as far as they are written, with room for more than a text may have.
use harness::table;

#[derive(Clone, Copy)]
pub struct Text {
    bytes: [u8; 2048],
    length: usize,
}

impl Text {
    pub fn new() -> Text {
        Text {
            bytes: [0; 2048],
            length: 0,
        }
    }

    pub fn bytes(&self) -> &[u8] {
        table::front(&self.bytes, self.length)
    }

    // All that was written; none where there was no room for some of it.
    pub fn whole(&self) -> Option<&[u8]> {
        self.bytes.get(..self.length)
    }

    // How many bytes were written, with those for which there was no room.
    pub fn length(&self) -> usize {
        self.length
    }

    // A byte goes to the end.
    pub fn push(&mut self, byte: u8) {
        table::put(&mut self.bytes, self.length, byte);
        self.length = self.length.wrapping_add(1);
    }

    // Bytes go to the end.
    pub fn append(&mut self, bytes: &[u8]) {
        for b in bytes {
            self.push(*b);
        }
    }
}
