// Tag names: the check of a name request, the name as a part of the table that holds it, and the tag of a name.
// Each call reads a table's length bytes at most twice, so the time is linear in the tables' lengths.
#![tactic(auto)]

ghost use Rattle.std.specs.Prelude.{◌≡◌, ◌≤◌, length, take, drop};
ghost use Rattle.model.specs.Refusals.{verdict, told};
ghost use Rattle.names.specs.Names.{malformed, names, by_tag, name_table_checks, name_checks, part_for, IsPart, found, Decided};
ghost use Rattle.model.specs.Lists.{equal};
ghost use Rattle.names.specs.Tags.{spellings, hit_from, tag_of};

use model::Refusal;

// The two name tables that are lent (document 01: the house's and the site's vocabulary).
#[derive(Clone, Copy)]
pub enum Table {
    House,
    Site,
}

// A part of a table: where its first byte stands, and how many bytes it has.
#[derive(Clone, Copy)]
pub struct Part {
    pub table: Table,
    pub start: usize,
    pub len: usize,
}

// The highest tag that a name can have.
const LAST_TAG: usize = 65533;

// The table is no run of names.
fn is_malformed(table: &[u8]) -> bool
    ensures { result ≡ malformed table.now }
{
    let mut at = 0;
    // A `while`, here and below: each turn goes on by a length byte and its name. An iterator over the names would be longer than the loops.
    while at < table.len() {
        let len = usize::from(table[at]);
        if (len == 0) | (32 < len) {
            return true;
        }
        at = at + 1 + len;
    }
    at != table.len()
}

// Name `number` of a table; where the table ends first, how many names are still to pass.
fn seek(table: &[u8], which: Table, number: usize) -> Result<Part, usize>
    ensures { result ≡ found (names which table.now) number }
{
    let mut at = 0;
    let mut left = number;
    while at < table.len() {
        let len = usize::from(table[at]);
        if left == 0 {
            return Ok(Part {
                table: which,
                start: at + 1,
                len,
            });
        }
        left -= 1;
        at = at + 1 + len;
    }
    Err(left)
}

// The name of a tag: tags count through the house's names first, then the site's.
fn find(house: &[u8], site: &[u8], tag: usize) -> Result<Part, usize>
    ensures { result ≡ found (by_tag house.now site.now) tag }
{
    match seek(house, Table::House, tag) {
        Ok(p) => Ok(p),
        Err(left) => seek(site, Table::Site, left),
    }
}

// The two tables: 21 at 0 or 1 for a malformed one.
pub fn check_tables(house: &[u8], site: &[u8]) -> Result<(), Refusal>
    ensures { told result ≡ verdict (name_table_checks house.now site.now) }
{
    if is_malformed(house) {
        return Err(Refusal::NameTable(0));
    }
    if is_malformed(site) {
        return Err(Refusal::NameTable(1));
    }
    Ok(())
}

// The name of a tag, or refusal 21 or 22.
fn look_up(house: &[u8], site: &[u8], tag: u16) -> Result<Part, Refusal>
    ensures { Decided house.now site.now tag result }
{
    check_tables(house, site)?;
    let number = usize::from(tag);
    let beyond = LAST_TAG < number;
    if beyond {
        return Err(Refusal::NoName);
    }
    match find(house, site, number) {
        Ok(p) => Ok(p),
        Err(_) => Err(Refusal::NoName),
    }
}

// A name request: 21 at 0 or 1 for a malformed table, then 22 where the tag has no name.
pub fn check_name(house: &[u8], site: &[u8], tag: u16) -> Result<(), Refusal>
    ensures { told result ≡ verdict (name_checks house.now site.now tag) }
{
    let _name = look_up(house, site, tag)?;
    Ok(())
}

// The name of a tag as a part of the table that holds it; the empty part at the start of the house's table where the
// request is refused.
pub fn name<'a>(house: &'a [u8], site: &'a [u8], tag: u16) -> &'a [u8]
    ensures { IsPart house.entry site.entry result (part_for house.now site.now tag) }
{
    let Ok(p) = look_up(house, site, tag) else {
        return &house[0..0];
    };
    let end = p.start + p.len;
    match p.table {
        Table::House => &house[p.start..end],
        Table::Site => &site[p.start..end],
    }
}

// Whether the name of `len` bytes at `start` of a table is this one. One that runs past the table's end has the bytes up to it.
fn is_name(table: &[u8], start: usize, len: usize, name: &[u8]) -> bool
    requires { start ≤ length table.now }
    ensures { result ≡ equal (take len (drop start table.now)) name.now }
{
    let rest = &table[start..];
    &rest[..len.min(rest.len())] == name
}

// The first name of a table that has these bytes, by its number, counted from `from`; where there is none, how many names are counted by
// then. One look at each name up to tag 65533.
fn spot(table: &[u8], name: &[u8], from: usize) -> Result<usize, usize>
    ensures { result ≡ hit_from from name.now (spellings table.now) }
{
    let mut at = 0;
    let mut number = from;
    while at < table.len() {
        let passed = LAST_TAG < number;
        if passed {
            return Err(number);
        }
        let len = usize::from(table[at]);
        if is_name(table, at + 1, len, name) {
            return Ok(number);
        }
        number += 1;
        at = at + 1 + len;
    }
    Err(number)
}

// The lowest tag of a name: through the house's names first, then the site's. One look through the two tables for each name.
pub fn tag_of(house: &[u8], site: &[u8], name: &[u8]) -> Option<u16>
    ensures { result ≡ tag_of house.now site.now name.now }
{
    match spot(house, name, 0) {
        Ok(k) => Some(k as u16),
        Err(passed) => match spot(site, name, passed) {
            Ok(k) => Some(k as u16),
            Err(_) => None,
        },
    }
}
