// A recogniser of typed queries by a chart, straight from the grammar, for texts of at most 63 bytes. For each symbol of the
// grammar and each place of the text it has all places where a text of that symbol which starts there ends, and all up to
// which such a text has come or may have come, if other bytes follow. The test program holds the reader against it.
#![tactic(auto)]

pub mod rules;
pub mod spans;
pub mod words;

use harness::sums::bit;
use harness::table;
use spans::{Chart, Spans};
use words::{Symbol, WORDS};

// The most bytes that a text may have.
pub const MOST: usize = 63;

// What is known of a text: bit k of `whole` is set if its first k bytes are grammatical, and bit k of `viable` if some
// grammatical text, of any length, begins with them.
#[derive(Clone, Copy)]
pub struct Verdicts {
    pub whole: u64,
    pub viable: u64,
}

impl Verdicts {
    // The first so many bytes are grammatical.
    pub fn is_whole(&self, length: usize) -> bool {
        spans::has(self.whole, length)
    }

    // How many bytes of a text some grammatical text begins with: the place of refusal 24.
    pub fn reach(&self, length: usize) -> usize {
        (0..length)
            .find(|p| !spans::has(self.viable, p.wrapping_add(1)))
            .unwrap_or(length)
    }
}

fn is_name_byte(b: u8) -> bool {
    matches!(b, b'a'..=b'z' | b'A'..=b'Z' | b'0'..=b'9' | b'-' | b'_')
}

// A name ends behind each of its bytes: which ones a text has depends on what follows.
fn add_name(chart: &mut Chart, text: &[u8], place: usize) {
    let mut ends: u64 = 0;
    for k in place..MOST {
        if !is_name_byte(table::at(text, k)) {
            break;
        }
        ends |= bit(k + 1);
    }
    let name = Spans {
        ends,
        fronts: ends | bit(place),
    };
    chart.add(Symbol::Name, place, name);
}

// The places from one to another, both included.
fn run(first: usize, last: usize) -> u64 {
    let mut bits: u64 = 0;
    for k in first..=last {
        bits |= bit(k);
    }
    bits
}

// All words at a place.
fn add_words(chart: &mut Chart, text: &[u8], place: usize) {
    for (word, bytes) in WORDS {
        let common = words::common(text, place, bytes);
        let end = place.wrapping_add(common);
        let spans = Spans {
            ends: if common == bytes.len() { bit(end) } else { 0 },
            fronts: run(place, end),
        };
        chart.add(word, place, spans);
    }
}

// The verdicts on all fronts of a text, of at most 63 bytes. All symbols at a place come when all that start later are known.
pub fn judge(text: &[u8]) -> Verdicts {
    let mut chart = Chart::new();
    for place in (0..=text.len().min(MOST)).rev() {
        add_words(&mut chart, text, place);
        add_name(&mut chart, text, place);
        rules::add_all(&mut chart, place);
    }
    let s = chart.at(Symbol::Path, 0);
    Verdicts {
        whole: s.ends,
        viable: s.fronts,
    }
}
