// Readings in mapping buffers: an entry for each place of a name, read and written here and nowhere else.
#![tactic(auto)]

ghost use Rattle.std.specs.Prelude.{◌≡◌, ◌∷◌, ℕ, ◌+◌, ◌*◌, ◌<◌, ◌≤◌, leb, length, get_or};
ghost use Rattle.rules.specs.Limits.{name_limit, filled};
ghost use Rattle.mapping.specs.Entries.{entry_size, entry_values, stored, entries, Put};

// A place of the name, from 0.
#[derive(Clone, Copy, Debug, PartialEq, Eq)]
pub struct Place(pub usize);

// A position of the expression, from 1; 0 is the start.
#[derive(Clone, Copy, Debug, PartialEq, Eq)]
pub struct Position(pub usize);

const ENTRY_SIZE: usize = 1;

// The bytes that the longest reading takes.
pub const MOST: usize = ENTRY_SIZE * rules::NAME_LIMIT;

// The bytes that n entries take.
pub fn room(n: usize) -> usize
    requires { n ≤ name_limit }
    ensures { result ≡ entry_size * n }
{
    ENTRY_SIZE * n
}

// Whether n entries have room in so many bytes.
pub fn holds(size: usize, n: usize) -> bool
    requires { n ≤ name_limit }
    ensures { result ≡ leb (entry_size * n) size }
{
    ENTRY_SIZE * n <= size
}

// The entry for a place.
#[tactic(auto, using(crate::proofs::Entries::entry_is))]
pub fn entry(mapping: &[u8], i: Place) -> Position
    requires { entry_size * (i.0 + 1) ≤ length mapping.now }
    ensures { ((n : ℕ) → i.0 < n → result.0 ≡ get_or (entries n mapping.now) i.0 0) × (result.0 < entry_values) }
{
    Position(usize::from(mapping[ENTRY_SIZE * i.0]))
}

// The entry before a place; at the first place, the start.
pub fn entry_before(mapping: &[u8], i: Place) -> Position
    requires { entry_size * i.0 ≤ length mapping.now }
    ensures { (n : ℕ) → i.0 ≤ n → result.0 ≡ get_or (0 ∷ entries n mapping.now) i.0 0 }
{
    if i.0 == 0 {
        return Position(0);
    }
    entry(mapping, Place(i.0 - 1))
}

// Puts a position into the entry for a place.
#[tactic(auto, using(crate::proofs::Entries::put_byte))]
pub fn put(mapping: &mut [u8], i: Place, q: Position)
    requires { (entry_size * (i.0 + 1) ≤ length mapping.old) × (q.0 < entry_values) }
    ensures { Put i.0 q.0 mapping.old mapping.new }
{
    mapping[ENTRY_SIZE * i.0] = q.0 as u8;
}

// Keeps the first n entries, and makes the rest of the buffer zero.
#[tactic(auto, unfolding(crate::specs::Entries::stored, crate::specs::Entries::entries))]
pub fn wipe_from(mapping: &mut [u8], n: usize)
    requires { entry_size * n ≤ length mapping.old }
    ensures { mapping.new ≡ filled mapping.old (stored (entries n mapping.old)) }
{
    buffers::wipe_from(mapping, ENTRY_SIZE * n);
}
