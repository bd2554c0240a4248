// Sets of positions as bits: machine words in tables and locals, bytes in a row of the work area.
#![tactic(auto)]

ghost use Rattle.std.specs.Prelude.{◌≡◌, ◌||◌, ◌&&◌, false, not, MatchOption, ℕ, ◌+◌, ◌*◌, ◌/◌, ◌%◌, ◌^◌, ◌-◌, ◌≤◌, ◌<◌, length, get_or, eqb, leb, ltb};
ghost use Rattle.bits.specs.Sets.{word_bits, word_bytes, byte_bits, set_words, set_bits, set_bytes, bit, empty_set, member, has, row_has, share, size_of, LeastFrom};
ghost use Rattle.bits.specs.Words.{Lowest, LowestTaken, WordAt};

pub const WORD_BITS: usize = 64;

pub const WORD_BYTES: usize = 8;

// How many words a set has; specs/Sets.antt has the same number.
pub const SET_WORDS: usize = 2;

// A set's members are below this.
pub const SET_BITS: usize = WORD_BITS * SET_WORDS;

// How many bytes of a row a set takes.
pub const SET_BYTES: usize = WORD_BYTES * SET_WORDS;

// A set of positions: the position q is bit q % 64 of word q / 64.
#[derive(Clone, Copy, PartialEq, Eq, Debug)]
pub struct Set {
    pub words: [u64; SET_WORDS],
}

impl Set {
    // No position.
    #[tactic(auto, using(crate::proofs::Members::no_member))]
    pub fn new() -> Set
        ensures { (x : ℕ) → member result x ≡ false }
    {
        Set {
            words: [0; SET_WORDS],
        }
    }

    // The position q alone. It tells its words apart by a test, so that they need not lie in memory.
    #[tactic(auto, using(crate::proofs::Members::alone))]
    pub fn of(q: usize) -> Set
        requires { q < set_bits }
        ensures { (x : ℕ) → member result x ≡ eqb x q }
    {
        let mut words = [0; SET_WORDS];
        for i in 0..SET_WORDS {
            if i == q / WORD_BITS {
                words[i] = 1 << (q % WORD_BITS);
            }
        }
        Set { words }
    }

    // Whether q is a member.
    #[tactic(auto, using(crate::proofs::Members::tested))]
    pub fn has(&self, q: usize) -> bool
        requires { q < set_bits }
        ensures { result ≡ member self.now q }
    {
        self.words[q / WORD_BITS] >> (q % WORD_BITS) & 1 == 1
    }

    // Puts q in.
    #[tactic(auto, using(crate::proofs::Members::inserted))]
    pub fn insert(&mut self, q: usize)
        requires { q < set_bits }
        ensures { (x : ℕ) → member self.new x ≡ (member self.old x || eqb x q) }
    {
        self.words[q / WORD_BITS] |= 1 << (q % WORD_BITS);
    }

    // Takes the start out.
    #[tactic(auto, using(crate::proofs::Members::start_dropped))]
    pub fn drop_start(&mut self)
        ensures { (x : ℕ) → member self.new x ≡ (member self.old x && not (eqb x 0)) }
    {
        self.words[0] &= !1;
    }

    // The set whose words `op` makes of those of the two sets.
    fn zip<F: Fn(u64, u64) -> u64>(self, other: Set, op: F) -> Set
        requires { F.IsAlwaysCallable op }
        ensures { (i : ℕ) → i < set_words → F.post op (get_or self.words i 0) (get_or other.words i 0) (get_or result.words i 0) }
    {
        let mut words = [0; SET_WORDS];
        for i in 0..SET_WORDS {
            words[i] = op(self.words[i], other.words[i]);
        }
        Set { words }
    }

    // The members of either.
    #[tactic(auto, using(crate::proofs::Members::united))]
    pub fn union(self, other: Set) -> Set
        ensures { (x : ℕ) → member result x ≡ (member self x || member other x) }
    {
        self.zip(other, |a, b| a | b)
    }

    // The members of both.
    #[tactic(auto, using(crate::proofs::Members::shared))]
    pub fn intersection(self, other: Set) -> Set
        ensures { (x : ℕ) → member result x ≡ (member self x && member other x) }
    {
        self.zip(other, |a, b| a & b)
    }

    // Each member one on; one at the last position is gone.
    #[tactic(auto, using(crate::proofs::Members::moving))]
    pub fn moved(self) -> Set
        ensures { (x : ℕ) → member result x ≡ (leb 1 x && ltb x set_bits && member self (x - 1)) }
    {
        let mut words = [0; SET_WORDS];
        let mut carry = 0;
        for i in 0..SET_WORDS {
            words[i] = self.words[i] << 1 | carry;
            carry = self.words[i] >> (WORD_BITS - 1);
        }
        Set { words }
    }

    // Whether the two share a member.
    #[tactic(auto, using(crate::proofs::Shares::meeting))]
    pub fn meets(self, other: Set) -> bool
        ensures { result ≡ share self other }
    {
        for i in 0..SET_WORDS {
            if self.words[i] & other.words[i] != 0 {
                return true;
            }
        }
        false
    }

    // The least member from `bound` on.
    #[tactic(auto, using(crate::proofs::Least::least_nowhere))]
    pub fn least_from(self, bound: usize) -> Option<usize>
        ensures { LeastFrom (member self) bound result }
    {
        for i in bound / WORD_BITS..SET_WORDS {
            let below = bound.saturating_sub(WORD_BITS * i);
            if let Some(b) = lowest(self.words[i] >> below << below) {
                return Some(WORD_BITS * i + b);
            }
        }
        None
    }

    // How many members it has.
    #[tactic(auto, using(crate::proofs::Ones::counting))]
    pub fn count(self) -> usize
        ensures { result ≡ size_of self }
    {
        let mut n = 0;
        for word in self.words {
            n += word.count_ones() as usize;
        }
        n
    }

    // The set at the front of a row.
    #[tactic(auto, using(crate::proofs::Bytes::loaded))]
    pub fn load(row: &[u8]) -> Set
        requires { set_bytes ≤ length row.now }
        ensures { (x : ℕ) → member result x ≡ row_has row.now x }
    {
        let mut words = [0; SET_WORDS];
        for i in 0..SET_WORDS {
            words[i] = get_word(row, WORD_BYTES * i);
        }
        Set { words }
    }

    // Writes the set to the front of a row.
    #[tactic(auto, using(crate::proofs::Bytes::storing))]
    pub fn store(self, row: &mut [u8])
        requires { set_bytes ≤ length row.old }
        ensures members { (x : ℕ) → row_has row.new x ≡ member self x }
        ensures rest { (i : ℕ) → set_bytes ≤ i → get_or row.new i 0 ≡ get_or row.old i 0 }
    {
        for i in 0..SET_WORDS {
            put_word(row, WORD_BYTES * i, self.words[i]);
        }
    }
}

// Puts all of `to` into the set of each member of `from`.
pub fn link(table: &mut [Set], from: Set, to: Set)
    requires { set_bits ≤ length table.old }
    ensures { (p x : ℕ) → has table.new p x ≡ (has table.old p x || member from p && member to x) }
{
    for i in 0..SET_WORDS {
        let mut word = from.words[i];
        while let Some(b) = take_lowest(&mut word) {
            let q = WORD_BITS * i + b;
            table[q] = table[q].union(to);
        }
    }
}

// The members of `from` whose own sets in `table` share a member with `other`.
pub fn sift(from: Set, table: &[Set], other: Set) -> Set
    requires { set_bits ≤ length table.now }
    ensures { (x : ℕ) → member result x ≡ (member from x && share (get_or table.now x empty_set) other) }
{
    let mut words = [0; SET_WORDS];
    for i in 0..SET_WORDS {
        let mut word = from.words[i];
        while let Some(b) = take_lowest(&mut word) {
            if table[WORD_BITS * i + b].meets(other) {
                words[i] |= 1 << b;
            }
        }
    }
    Set { words }
}

// Takes the lowest bit out of a word.
fn take_lowest(word: &mut u64) -> Option<usize>
    ensures { MatchOption result (word.old ≡ 0) (λ b. LowestTaken word.old b word.new) }
{
    let b = lowest(*word)?;
    *word &= *word - 1;
    Some(b)
}

// The lowest bit of a word.
#[tactic(auto, using(crate::proofs::Bits::lowest))]
fn lowest(word: u64) -> Option<usize>
    ensures { MatchOption result (word ≡ 0) (Lowest word_bits word) }
{
    if word == 0 {
        None
    } else {
        Some(u64::trailing_zeros(word) as usize)
    }
}

// The word of eight bytes, the lowest first.
fn get_word(row: &[u8], at: usize) -> u64
    requires { at + word_bytes ≤ length row.now }
    ensures { (b : ℕ) → b < word_bits → bit result b ≡ bit (get_or row.now (at + b / byte_bits) 0) (b % byte_bits) }
{
    let bytes = <[u8; WORD_BYTES]>::try_from(&row[at..at + WORD_BYTES]);
    u64::from_le_bytes(bytes.unwrap())
}

// Writes a word as eight bytes, the lowest first.
#[tactic(auto, using(crate::proofs::Bytes::put))]
fn put_word(row: &mut [u8], at: usize, x: u64)
    requires { at + word_bytes ≤ length row.old }
    ensures { WordAt row.old row.new at x }
{
    row[at..at + WORD_BYTES].copy_from_slice(&x.to_le_bytes());
}
