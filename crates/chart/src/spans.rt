// Of the texts of a symbol that start at a place: bit k of `ends` is set if one ends at place k, and bit k of `fronts` if the
// bytes up to place k are all of one or the beginning of one.
use super::words::Symbol;
use harness::sums::bit;

#[derive(Clone, Copy)]
pub struct Spans {
    pub ends: u64,
    pub fronts: u64,
}

const NONE: Spans = Spans { ends: 0, fronts: 0 };

pub fn has(bits: u64, k: usize) -> bool {
    bits & bit(k) != 0
}

// Nothing was read yet.
pub fn point(place: usize) -> Spans {
    Spans {
        ends: bit(place),
        fronts: bit(place),
    }
}

impl Spans {
    fn or(self, more: Spans) -> Spans {
        Spans {
            ends: self.ends | more.ends,
            fronts: self.fronts | more.fronts,
        }
    }
}

// The spans of 64 symbols at 64 places.
#[derive(Clone, Copy)]
pub struct Chart {
    spans: [Spans; 4096],
}

impl Chart {
    // No text is known.
    pub fn new() -> Chart {
        Chart {
            spans: [NONE; 4096],
        }
    }

    pub fn at(&self, symbol: Symbol, place: usize) -> Spans {
        let number = symbol as usize;
        if (number < 64) & (place < 64) {
            return self.spans[64 * number + place];
        }
        NONE
    }

    pub fn add(&mut self, symbol: Symbol, place: usize, more: Spans) {
        let number = symbol as usize;
        if (number < 64) & (place < 64) {
            let spans = self.spans[64 * number + place];
            self.spans[64 * number + place] = spans.or(more);
        }
    }

    // A text with spans a, none of which starts before a place, and then one of a symbol.
    pub fn then(&self, place: usize, a: Spans, symbol: Symbol) -> Spans {
        let mut spans = Spans { ends: 0, ..a };
        for k in place..64 {
            if a.ends >> k == 0 {
                return spans;
            }
            if has(a.ends, k) {
                spans = spans.or(self.at(symbol, k));
            }
        }
        spans
    }
}
