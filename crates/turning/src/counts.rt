// What the random queries were like.
use harness::sums::{Sums, bit};
use harness::tally::{Tally, show_number};
use model::Kind;
use reference::query::{Query, kind_number};

#[derive(Clone, Copy)]
enum Sum {
    // How many queries can be reversed within 64 entries and how many cannot; how many of these come to 64 entries and to 65; and how
    // many can be reversed twice.
    Within,
    Beyond,
    Largest,
    Next,
    Twice,
    // How many images over reversed queries there were, and how many of these had some nodes and not all.
    Images,
    Mixed,
    // The kinds and the axes in the queries that can be reversed: bit k for number k.
    Kinds,
    Axes,
}

#[derive(Clone, Copy)]
pub struct Counts {
    sums: Sums<9>,
}

impl Counts {
    pub fn new() -> Counts {
        Counts {
            sums: Sums::<9>::new(),
        }
    }

    fn count(&mut self, sum: Sum, is_case: bool) {
        self.sums.add(sum as usize, u64::from(is_case));
    }

    fn at(&self, sum: Sum) -> u64 {
        self.sums.at(sum as usize)
    }

    // A query whose reversed query has so many entries.
    pub fn count_query(&mut self, query: &Query, entries: usize) {
        self.count(Sum::Largest, entries == 64);
        self.count(Sum::Next, entries == 65);
        self.count(Sum::Beyond, 64 < entries);
        self.count(Sum::Within, entries <= 64);
        if 64 < entries {
            return;
        }
        for e in 0..query.entries() {
            let f = query.entry(e);
            self.sums
                .meet(Sum::Kinds as usize, bit(kind_number(f.kind)));
            if f.kind == Kind::Step {
                self.sums.meet(Sum::Axes as usize, bit(f.left));
            }
        }
    }

    // One that can be reversed, whose reversed query can be reversed if it is so.
    pub fn count_twice(&mut self, holds: bool) {
        self.count(Sum::Twice, holds);
    }

    // An image of so many nodes among n.
    pub fn count_image(&mut self, found: usize, n: usize) {
        self.count(Sum::Images, true);
        self.count(Sum::Mixed, (0 < found) & (found < n));
    }

    // A sum is no less than one of so many of a whole.
    fn is_share(&self, part: Sum, whole: u64, of: usize) -> bool {
        whole <= self.at(part).wrapping_mul(of as u64)
    }

    // No fewer than one of so many queries were reversed, as many reversed twice, and as many not reversed; some came to the most entries
    // that there may be, and some to one more; those reversed had every kind and every axis; and no fewer than one of so many images had
    // some nodes and not all.
    pub fn expect_all(&self, tally: &mut Tally, of: usize, of_images: usize) {
        let queries = self.at(Sum::Within).wrapping_add(self.at(Sum::Beyond));
        tally.expect(self.is_share(Sum::Within, queries, of));
        tally.expect(self.is_share(Sum::Beyond, queries, of));
        tally.expect(self.is_share(Sum::Twice, queries, of));
        tally.expect(0 < self.at(Sum::Largest));
        tally.expect(0 < self.at(Sum::Next));
        let mixed = self.is_share(Sum::Mixed, self.at(Sum::Images), of_images);
        tally.expect((0 < self.at(Sum::Mixed)) & mixed);
        tally.expect(self.at(Sum::Kinds) == 32767);
        tally.expect(self.at(Sum::Axes) == 8191);
    }

    fn show(&self, sum: Sum, name: &[u8]) {
        io::write_all(1, name);
        show_number(self.at(sum), b"\n");
    }

    pub fn show_all(&self) {
        self.show(Sum::Within, b"random queries reversed: ");
        self.show(Sum::Largest, b"of these with 64 entries: ");
        self.show(Sum::Twice, b"of these reversed twice: ");
        self.show(Sum::Beyond, b"random queries with more than 64 entries: ");
        self.show(Sum::Next, b"of these with 65 entries: ");
        self.show(Sum::Images, b"images over reversed queries: ");
        self.show(Sum::Mixed, b"of these with some nodes and not all: ");
    }
}
