// Tables and buffers that take any index: an item is read as 0 past the end, and not written there.

// Room for a set of nodes, and more.
pub type Set = [u8; 512];

// Room for the pairs of 256 nodes, and more.
pub type Cells = [u8; 66560];

// Room for rows of answers.
pub type Rows = [u16; 1024];

// Room for the pairs of 256 nodes as bits, and more.
pub type Words = [u64; 1040];

// Item k of a list; 0 past the end.
pub fn at<T: Copy + Default>(items: &[T], k: usize) -> T {
    if k < items.len() {
        items[k]
    } else {
        T::default()
    }
}

// Writes item k of a list, where it has one.
pub fn put<T: Copy>(items: &mut [T], k: usize, value: T) {
    if k < items.len() {
        items[k] = value;
    }
}

// Copies a list to the front of another, as far as either reaches.
pub fn copy<T: Copy>(from: &[T], to: &mut [T]) {
    let end = from.len().min(to.len());
    to[..end].copy_from_slice(&from[..end]);
}

// The first items of a list, as many as it has.
pub fn front<T>(items: &[T], length: usize) -> &[T] {
    let end = length.min(items.len());
    &items[..end]
}

// A number as a byte; 0 where it is none.
pub fn byte(x: usize) -> u8 {
    u8::try_from(x).unwrap_or(0)
}

// A number as one of a table; 0 where it is none.
pub fn narrow(x: usize) -> u16 {
    u16::try_from(x).unwrap_or(0)
}

// Up to N numbers.
#[derive(Clone, Copy)]
pub struct Numbers<const N: usize> {
    length: usize,
    numbers: [u16; N],
}

// A tree of two numbers a node, a query of four an entry, or the nodes of an assignment.
pub type Table = Numbers<1024>;

impl<const N: usize> Numbers<N> {
    // No number, and room for all.
    pub fn new() -> Self {
        Numbers {
            length: 0,
            numbers: [0; N],
        }
    }

    // So many numbers that are 0 until they are written.
    pub fn with_length(length: usize) -> Self {
        Numbers {
            length: length,
            numbers: [0; N],
        }
    }

    // How many numbers there are.
    pub fn length(&self) -> usize {
        self.length.min(N)
    }

    pub fn set_length(&mut self, length: usize) {
        self.length = length;
    }

    pub fn numbers(&self) -> &[u16] {
        front(&self.numbers, self.length)
    }

    // Number k; 0 past the end.
    pub fn at(&self, k: usize) -> usize {
        if (k < self.length) & (k < N) {
            usize::from(self.numbers[k])
        } else {
            0
        }
    }

    // Writes number k, unless it has more than 16 bits.
    pub fn put(&mut self, k: usize, value: usize) {
        if let Ok(number) = u16::try_from(value) {
            put(&mut self.numbers, k, number);
        }
    }

    // Writes a number behind the others.
    pub fn push(&mut self, value: usize) {
        let end = self.length();
        self.put(end, value);
        self.length = end.wrapping_add(1);
    }
}
