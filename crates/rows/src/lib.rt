// Rows of live positions in the work area: filled from the right, and looked at.
#![tactic(auto)]

ghost use Rattle.std.specs.Prelude.{◌≡◌, List, ◌∷◌, ℕ, ◌+◌, ◌*◌, ◌<◌, ◌≤◌, length, drop};
ghost use Rattle.rules.specs.Limits.{name_limit, row_size, area_for};
ghost use Rattle.language.specs.Reading.{Pattern};
ghost use Rattle.language.specs.Search.{accepts};
ghost use Rattle.bits.specs.Sets.{member, row_has};
ghost use Rattle.automaton.specs.Tables.{Follows, Stops, Letters};
ghost use Rattle.rows.specs.Rows.{Live, LastLive, row_at, RowsOf};

use automaton::Tables;
use bits::Set;
use mapping::Place;
use rules::ROW_SIZE;

// Fills the row in front from the row after it: the positions that take the byte, and after which one of that row may come.
#[tactic(auto, using(crate::proofs::Parts::rest_same))]
fn fill_row(row: &mut [u8], byte: u8, tables: &Tables)
    requires { row_size + row_size ≤ length row.old }
    ensures live { (P : Pattern) (b : ℕ) (bs : List ℕ) → Follows P tables.now.follow → Letters P tables.now.letters
        → Live P b bs (drop row_size row.old) → Live P byte (b ∷ bs) row.new }
    ensures rest { drop row_size row.new ≡ drop row_size row.old }
{
    let after = Set::load(&row[ROW_SIZE..]);
    bits::sift(tables.taking(byte), &tables.follow, after).store(row);
}

// Fills the row in front for the last byte of a name: the positions that take the byte, and after which a word may end.
#[tactic(auto, using(crate::proofs::Parts::rest_same))]
fn fill_last(row: &mut [u8], byte: u8, tables: &Tables)
    requires { row_size ≤ length row.old }
    ensures last_live { (P : Pattern) → Stops P tables.now.stops → Letters P tables.now.letters → LastLive P byte row.new }
    ensures rest { drop row_size row.new ≡ drop row_size row.old }
{
    tables.taking(byte).intersection(tables.stops).store(row);
}

// Fills the rows of all places, from the right: the row of a place is lent by itself.
pub fn fill(work: &mut [u8], name: &[u8], tables: &Tables)
    requires { (length name.now ≤ name_limit) × (area_for name.now ≤ length work.old) }
    ensures rows_of { (P : Pattern) → Follows P tables.now.follow → Stops P tables.now.stops → Letters P tables.now.letters → RowsOf P name.now work.new }
    ensures rest_unchanged { row_at work.new (length name.now) ≡ row_at work.old (length name.now) }
{
    let Some(last) = name.len().checked_sub(1) else {
        return;
    };
    fill_last(&mut work[ROW_SIZE * last..], name[last], tables);
    for i in (0..last).rev() {
        fill_row(&mut work[ROW_SIZE * i..], name[i], tables);
    }
}

// A name, tables, and a work area with room for the name's rows.
#[derive(Clone, Copy)]
pub struct Rows<'a> {
    pub name: &'a [u8],
    pub work: &'a [u8],
    pub tables: &'a Tables,
    pub ghost short: { length name.now ≤ name_limit },
    pub ghost room: { area_for name.now ≤ length work.now },
}

impl<'a> Rows<'a> {
    ghost use Rattle.rows.specs.Filled.{FilledFor};

    // The set that the row of a place holds.
    pub fn live(&self, i: Place) -> Set
        requires { i.0 < length self.now.name.now }
        ensures { (x : ℕ) → member result x ≡ row_has (row_at self.now.work.now i.0) x }
    {
        Set::load(&self.work[ROW_SIZE * i.0..])
    }

    // Whether the name has a reading, once its rows are filled: one of the first row may come at the start; of an empty name, a word may end there.
    pub fn begins(&self) -> bool
        ensures { (P : Pattern) → FilledFor P self.now → Stops P self.now.tables.now.stops → result ≡ accepts P self.now.name.now }
    {
        if self.name.is_empty() {
            return self.tables.stops.has(0);
        }
        self.tables.follow[0].meets(self.live(Place(0)))
    }
}
