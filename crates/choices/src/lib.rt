// Choices among live positions: the least reading of a name, the reading after a given one, and whether a sequence is a reading.
#![tactic(auto)]

ghost use Rattle.std.specs.Prelude.{◌≡◌, ◌&&◌, true, ◌++◌, ℕ, ◌+◌, ◌*◌, ◌<◌, ◌≤◌, IfSome, T, length, take, drop};
ghost use Rattle.mapping.specs.Entries.{entry_size, entry_values, beyond, given};
ghost use Rattle.language.specs.Tree.{size};
ghost use Rattle.language.specs.Local.{Numbered};
ghost use Rattle.language.specs.Reading.{Pattern};
ghost use Rattle.language.specs.Search.{is_reading};
ghost use Rattle.bits.specs.Sets.{set_bits, has, row_has};
ghost use Rattle.automaton.specs.Tables.{letter_of, Follows, Stops, Letters};
ghost use Rattle.rows.specs.Rows.{readable, row_at};
ghost use Rattle.rows.specs.Filled.{FilledFor};
ghost use Rattle.choices.specs.Moves.{LeastPosition, chosen, Small, Within, Moved, Advanced};

use automaton::Tables;
use bits::SET_BITS;
use mapping::{Place, Position};
use rows::Rows;

// Where a reading can move on: the place whose entry moves, and the later position it moves to.
#[derive(Clone, Copy)]
pub struct Move {
    pub place: Place,
    pub position: Position,
}

// Whether q may come after p and takes the byte.
#[tactic(auto, using(crate::proofs::Checked::table_has, crate::proofs::Checked::table_off))]
fn reads_on(tables: &Tables, p: Position, byte: u8, q: Position) -> bool
    requires { p.0 < set_bits }
    ensures value { result ≡ (has tables.now.follow p.0 q.0 && has tables.now.letters (letter_of byte) q.0) }
    ensures within { result ≡ true → q.0 < set_bits }
{
    q.0 < SET_BITS && tables.follow[p.0].has(q.0) && tables.taking(byte).has(q.0)
}

// Whether the first entries of the mapping are a reading of the name.
pub fn is_reading(name: &[u8], mapping: &[u8], tables: &Tables) -> bool
    requires { entry_size * length name.now ≤ length mapping.now }
    ensures value { (P : Pattern) → Numbered 1 (1 + size P.tree) P.tree → Follows P tables.now.follow → Stops P tables.now.stops → Letters P tables.now.letters
        → result ≡ is_reading P name.now (given name.now mapping.now) }
    ensures small { result ≡ true → Small (length name.now) (given name.now mapping.now) }
{
    let mut p = Position(0);
    for i in 0..name.len() {
        let q = mapping::entry(mapping, Place(i));
        if !reads_on(tables, p, name[i], q) {
            return false;
        }
        p = q;
    }
    tables.stops.has(p.0)
}

// The least live position of a place that may come after p.
#[tactic(auto, using(crate::proofs::Picks::row_below, crate::proofs::Checked::table_has))]
fn choice(rows: &Rows, i: Place, p: Position) -> Option<Position>
    requires { (i.0 < length rows.now.name.now) × (p.0 < set_bits) }
    ensures least { LeastPosition (λ x. row_has (row_at rows.now.work.now i.0) x && has rows.now.tables.now.follow p.0 x) 1 result }
    ensures within { IfSome result (λ q. q.0 < set_bits) }
{
    let next = rows.live(i).intersection(rows.tables.follow[p.0]);
    let q = next.least_from(1)?;
    Some(Position(q))
}

// Chooses from a place on, after a position: at each place the least live position that may come next.
pub fn choose(rows: &Rows, mapping: &mut [u8], from: Place, after: Position)
    requires { (from.0 ≤ length rows.now.name.now) × (entry_size * length rows.now.name.now ≤ length mapping.old) × (after.0 < set_bits) }
    ensures mapping_after { (P : Pattern) → FilledFor P rows.now → T (readable P (drop from.0 rows.now.name.now) after.0)
        → given rows.now.name.now mapping.new ≡ take from.0 (given rows.now.name.now mapping.old) ++ chosen P (drop from.0 rows.now.name.now) after.0 }
    ensures rest_unchanged { beyond (length rows.now.name.now) mapping.new ≡ beyond (length rows.now.name.now) mapping.old }
{
    let mut p = after;
    for i in from.0..rows.name.len() {
        p = choice(rows, Place(i), p).unwrap_or(Position(0));
        mapping::put(mapping, Place(i), p);
    }
}

// The least live position of a place after q.
#[tactic(auto, using(crate::proofs::Picks::row_below))]
fn later(rows: &Rows, i: Place, q: Position) -> Option<Position>
    requires { (i.0 < length rows.now.name.now) × (q.0 < entry_values) }
    ensures least { LeastPosition (row_has (row_at rows.now.work.now i.0)) (q.0 + 1) result }
    ensures within { IfSome result (λ r. r.0 < set_bits) }
{
    let r = rows.live(i).least_from(q.0 + 1)?;
    Some(Position(r))
}

// The first place from the right whose entry can move to a later position with the rest still readable, and the least such position.
pub fn last_move(rows: &Rows, mapping: &[u8]) -> Option<Move>
    requires fits { entry_size * length rows.now.name.now ≤ length mapping.now }
    requires small { Small (length rows.now.name.now) (given rows.now.name.now mapping.now) }
    ensures within { Within (length rows.now.name.now) result }
    ensures moved { (P : Pattern) → FilledFor P rows.now → Moved P rows.now.name.now (given rows.now.name.now mapping.now) result }
{
    let mut found = None;
    let n = rows.name.len();
    'search: for i in (0..n).rev() {
        let place = Place(i);
        let before = mapping::entry_before(mapping, place);
        let mut entry = mapping::entry(mapping, place);
        'positions: while let Some(position) = later(rows, place, entry) {
            if rows.tables.follow[before.0].has(position.0) {
                found = Some(Move { place, position });
                break 'search;
            }
            entry = position;
        }
    }
    found
}

// Makes of a reading in the mapping the next one, if there is one.
pub fn advance(rows: &Rows, mapping: &mut [u8]) -> bool
    requires fits { entry_size * length rows.now.name.now ≤ length mapping.old }
    requires small { Small (length rows.now.name.now) (given rows.now.name.now mapping.old) }
    ensures advanced { (P : Pattern) → FilledFor P rows.now
        → Advanced P rows.now.name.now (given rows.now.name.now mapping.old) (given rows.now.name.now mapping.new) result }
    ensures rest_unchanged { beyond (length rows.now.name.now) mapping.new ≡ beyond (length rows.now.name.now) mapping.old }
{
    let Some(next) = last_move(rows, mapping) else {
        return false;
    };
    mapping::put(mapping, next.place, next.position);
    choose(rows, mapping, Place(next.place.0 + 1), next.position);
    true
}
