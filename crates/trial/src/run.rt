// The checks of the input, by the first letter of their line. A check of a table also makes it the present one.
use super::call::Service;
use super::pages::{Tables, Way};
use super::{
    call, compare, conversions, deep, indexes, kept, lookups, pages, paging, searches, views,
};
use harness::line::Line;
use harness::shared::Shared;
use harness::tally::{ACCEPTED, Sum, Tally};
use harness::{chains, due};
use model::{Refusal, Reply};
use reference::query::Query;
use reference::random::Seed;

// The present tables.
#[derive(Clone, Copy)]
struct Present {
    shared: Shared,
    query: Query,
}

// The first part of a line says which number and place are due.
fn expect(tally: &mut Tally, line: &Line, got: Result<(), Refusal>) {
    tally.expect_reply(Reply::from(got), due::written(line, 0));
}

// The check of a shared table, which does not judge the party; where something is refused, so is the tree that is seen.
fn expect_table(tally: &mut Tally, shared: &Shared, line: &Line) {
    let due = due::written(line, 0);
    let got = Reply::from(ownership::check_table(shared.numbers()));
    match due.number {
        31 => tally.expect_reply(got, ACCEPTED),
        _ => tally.expect_reply(got, due),
    }
    if 0 < due.number {
        views::refuse(tally, shared, 512, line.reply(0));
    }
}

impl Present {
    // tree NUMBER PLACE | TABLE, or tree NUMBER PLACE PARTY | TABLE
    fn run_tree(&mut self, tally: &mut Tally, line: &Line) {
        if line.length(0) < 3 {
            self.shared = Shared::common(&line.table(1));
        } else {
            line.copy_table(1, &mut self.shared.table);
            self.shared.set_party(line.number(0, 2));
        }
        expect_table(tally, &self.shared, line);
    }

    // chain NUMBER PLACE | COUNT AT VALUE
    fn run_chain(&mut self, tally: &mut Tally, line: &Line) {
        self.shared = Shared::common(&chains::make_chain(line));
        expect_table(tally, &self.shared, line);
    }

    // query NUMBER PLACE | COLUMNS | TABLE
    fn run_query(&mut self, tally: &mut Tally, line: &Line) {
        line.copy_table(2, &mut self.query.table);
        let got = query::check_query(self.query.numbers(), line.number(1, 0));
        expect(tally, line, got);
    }

    // nested NUMBER PLACE | COUNT AT VALUE
    fn run_nested(&mut self, tally: &mut Tally, line: &Line) {
        self.query.table = chains::make_nested(line);
        expect(tally, line, query::check_query(self.query.numbers(), 0));
    }

    // least NUMBER PLACE | LEAST COLUMNS | TABLE
    fn run_least(&mut self, tally: &mut Tally, line: &Line) {
        line.copy_table(2, &mut self.query.table);
        let least = line.number(1, 0);
        let got = query::check_query_for(self.query.numbers(), least, line.number(1, 1));
        expect(tally, line, got);
    }

    // The lines that call an evaluation, a page, a search or the seen tree on the present tables, for a party.
    fn run_call_for(&self, tally: &mut Tally, shared: &Shared, line: &Line, letter: u8) {
        let query = &self.query;
        let tables = Tables { shared, query };
        match letter {
            b'f' => call::run(tally, shared, query, line, Service::Forwards),
            b'b' => call::run(tally, shared, query, line, Service::Backwards),
            b'p' => call::run(tally, shared, query, line, Service::Pairs),
            b'a' => pages::run(tally, tables, line, Way::Plain),
            b'e' => pages::run(tally, tables, line, Way::Quick),
            b'i' => indexes::run(tally, shared, line),
            b'd' => lookups::run(tally, shared, line),
            b'y' => views::run(tally, shared, line),
            _ => (),
        }
    }

    // The same for the party that asks, or for each.
    fn run_call(&self, tally: &mut Tally, line: &Line, letter: u8) {
        if self.shared.party.is_some() {
            self.run_call_for(tally, &self.shared, line, letter);
            return;
        }
        for party in 1..3 {
            self.run_call_for(tally, &self.shared.with_party(party), line, letter);
        }
    }

    // Runs a line.
    fn run_line(&mut self, tally: &mut Tally, bytes: &[u8]) {
        tally.next_line();
        let Some(first) = bytes.first() else {
            return;
        };
        let line = Line::read(bytes);
        match *first {
            b'=' => tally.end_part(bytes),
            b't' => self.run_tree(tally, &line),
            b'c' => self.run_chain(tally, &line),
            b'q' => self.run_query(tally, &line),
            b'n' => self.run_nested(tally, &line),
            b'l' => self.run_least(tally, &line),
            b'r' | b'w' | b's' | b'j' | b'm' | b'k' => run_random(tally, &line, *first),
            b'g' | b'u' | b'o' | b'v' | b'h' | b'z' => expect_random(tally, &line, *first),
            letter => self.run_call(tally, &line, letter),
        }
    }
}

// random SEED COUNT | LEAST MOST ENTRIES: so many shared tables, of LEAST to MOST nodes, and queries from a seed
// walks SEED COUNT | LEAST MOST ENTRIES | LEAST MOST | FEW: as random, with LEAST to MOST variables, and few answers where FEW is not 0
// kept SEED COUNT | LEAST MOST ENTRIES | LEAST MOST: the same, with queries that keep the rule of quick pages
// searches SEED COUNT | LEAST MOST TIMES: so many shared tables, of LEAST to MOST nodes, and TIMES searches of every sort for each party
// joined SEED COUNT | LEAST MOST | LEAST MOST: so many trees that a party sees, of LEAST to MOST nodes, and deep queries of LEAST to MOST
// leaves
// matrices SEED COUNT | LEAST MOST: so many tables of the pairs of LEAST to MOST nodes
fn run_random(tally: &mut Tally, line: &Line, letter: u8) {
    let mut pairs = [0u8; 4194304];
    let mut seed = Seed::new(line.number(0, 0));
    for _ in 0..line.number(0, 1) {
        match letter {
            b'r' => compare::run(tally, &mut seed, line, &mut pairs),
            b's' => searches::run(tally, &mut seed, line),
            b'j' => deep::run(tally, &mut seed, line, &mut pairs),
            b'm' => conversions::run_random(tally, &mut seed, line),
            b'k' => kept::run(tally, &mut seed, line, &mut pairs),
            _ => paging::run(tally, &mut seed, line, &mut pairs),
        }
    }
}

// The lines that say how many of the random tables were of some sort, each part a share.
fn expect_random(tally: &mut Tally, line: &Line, letter: u8) {
    let share = line.share(0);
    let second = line.share(1);
    match letter {
        b'g' => {
            tally.expect_gaps(share);
            tally.expect_blocks(Sum::Blocks, second);
            tally.expect_blocks(Sum::BlocksAfterOne, line.share(2));
            tally.expect_blocks(Sum::BlocksAfterTwo, line.share(3));
        }
        b'u' => tally.expect_damage(share),
        b'o' => {
            tally.expect_share(Sum::LeftOut, Sum::Documents, share);
            tally.expect_share(Sum::Closing, Sum::Shared, second);
            tally.expect_share(Sum::Meeting, Sum::Shared, line.share(2));
        }
        b'v' => {
            tally.expect_share(Sum::Mixed, Sum::Deep, share);
            tally.expect_share(Sum::Deciding, Sum::Deep, second);
        }
        b'h' => tally.expect_kept(share),
        _ => {
            tally.expect_share(Sum::Hiding, Sum::Shared, share);
            tally.expect_share(Sum::Through, Sum::Shared, second);
        }
    }
}

pub fn run_all(text: &[u8]) {
    let mut tally = Tally::new();
    let mut present = Present {
        shared: Shared::new(),
        query: Query::new(),
    };
    for bytes in text.split_inclusive(|b| *b == b'\n') {
        present.run_line(&mut tally, bytes);
    }
    tally.show_all();
}
