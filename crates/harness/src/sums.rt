// Sums by their number; past the last there is none.
#[derive(Clone, Copy)]
pub struct Sums<const N: usize> {
    sums: [u64; N],
}

impl<const N: usize> Sums<N> {
    pub fn new() -> Self {
        Sums { sums: [0; N] }
    }

    pub fn add(&mut self, at: usize, more: u64) {
        if at < N {
            self.sums[at] = self.sums[at].wrapping_add(more);
        }
    }

    // All bits of a number are met.
    pub fn meet(&mut self, at: usize, bits: u64) {
        if at < N {
            self.sums[at] |= bits;
        }
    }

    pub fn clear(&mut self, at: usize) {
        if at < N {
            self.sums[at] = 0;
        }
    }

    pub fn at(&self, at: usize) -> u64 {
        if at < N { self.sums[at] } else { 0 }
    }
}

// The word that has bit k alone; 0 where there is no such bit.
pub fn bit(k: usize) -> u64 {
    if k < 64 { 1 << k } else { 0 }
}
