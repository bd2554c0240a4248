// From an accepted sheet to the tables of its positions: what may follow what, where a word may end, which positions take a byte.
#![tactic(auto)]

ghost use Rattle.std.specs.Prelude.{◌≡◌, List, [], ◌∷◌, map, ℕ, ◌+◌, ◌≤◌, ◌<◌, length, reverse, take};
ghost use Rattle.std.proofs.Math.Option.{some};
ghost use Rattle.rules.specs.Limits.{leaf_limit, node_limit, waiting_limit};
ghost use Rattle.language.specs.Tree.{Tree, leaf, empty, cat, alt, star, size};
ghost use Rattle.language.specs.Reading.{Pattern};
ghost use Rattle.sheet.specs.Nodes.{node_of, build};
ghost use Rattle.sheet.specs.Layout.{leaf_count};
ghost use Rattle.sheet.specs.Stands.{stands_for};
ghost use Rattle.bits.specs.Sets.{set_bits, member, has, Empty};
ghost use Rattle.automaton.specs.Tables.{letter_sets, letter_of, Blank, TablesOf};
ghost use Rattle.automaton.specs.Walk.{FragmentOf, Only, State, LettersTo};

use bits::Set;
use sheet::{Node, Sheet};
use std::marker::Model;

// A set for each byte up to the highest literal.
pub const LETTER_SETS: usize = rules::HIGHEST_BYTE as usize + 1;

// What a subtree begins with, and where a word of it may end: 0 stands for a word that ends at once.
#[derive(Clone, Copy)]
struct Fragment {
    firsts: Set,
    stops: Set,
}

impl Fragment {
    // Of no subtree: what a place of the stack has before it is used.
    fn none() -> Fragment {
        Fragment {
            firsts: Set::new(),
            stops: Set::new(),
        }
    }

    // The leaf at the position that the set has alone.
    fn leaf(alone: Set) -> Fragment
        ensures { (p : ℕ) → 1 ≤ p → Only p alone → FragmentOf (leaf p) result }
    {
        Fragment {
            firsts: alone,
            stops: alone,
        }
    }

    // The empty word.
    fn empty() -> Fragment
        ensures { FragmentOf empty result }
    {
        Fragment {
            firsts: Set::new(),
            stops: Set::of(0),
        }
    }

    // The union of two.
    fn or(self, right: Fragment) -> Fragment
        ensures { (r t : Tree ℕ) → FragmentOf r self → FragmentOf t right → FragmentOf (alt r t) result }
    {
        Fragment {
            firsts: self.firsts.union(right.firsts),
            stops: self.stops.union(right.stops),
        }
    }

    // The concatenation of two.
    fn then(self, right: Fragment) -> Fragment
        ensures { (r t : Tree ℕ) → FragmentOf r self → FragmentOf t right → FragmentOf (cat r t) result }
    {
        let firsts = if self.stops.has(0) {
            self.firsts.union(right.firsts)
        } else {
            self.firsts
        };
        let mut stops = right.stops;
        if stops.has(0) {
            stops.drop_start();
            stops = stops.union(self.stops);
        }
        Fragment { firsts, stops }
    }

    // The star.
    fn starred(mut self) -> Fragment
        ensures { (r : Tree ℕ) → FragmentOf r self → FragmentOf (star r) result }
    {
        self.stops.insert(0);
        self
    }
}

// The fragments of the subtrees that wait, in a buffer that is lent, the last made on top.
#[derive(Drop)]
struct Waiting<'a> {
    fragments: &'a mut [Fragment],
    top: usize,
}

impl<'a> Model for Waiting<'a> {
    ghost use Rattle.std.specs.Prelude.{◌≡◌, List, reverse, take, length, ◌≤◌};
    ghost use Rattle.rules.specs.Limits.{waiting_limit};
    ghost use Rattle.automaton.specs.declared.Fragment.{Fragment};

    ghost Value = { List Fragment };

    ghost view = { λ w. reverse (take w.top w.fragments.now) };

    ghost invariant = { λ w. (w.top ≤ waiting_limit) × (length w.fragments.now ≡ waiting_limit) };
}

impl<'a> Waiting<'a> {
    // None waits yet.
    fn on(fragments: &'a mut [Fragment]) -> Waiting<'a>
        requires { length fragments.old ≡ waiting_limit }
        ensures { result ≡ [] }
    {
        Waiting { fragments, top: 0 }
    }

    // One more waits.
    fn push(&mut self, fragment: Fragment)
        requires { length self.old < waiting_limit }
        ensures { self.new ≡ fragment ∷ self.old }
    {
        self.fragments[self.top] = fragment;
        self.top += 1;
    }

    // The last made no longer waits.
    fn pop(&mut self) -> Fragment
        requires { 0 < length self.old }
        ensures { self.old ≡ result ∷ self.new }
    {
        self.top -= 1;
        self.fragments[self.top]
    }
}

// Reads node bytes that build one tree; its fragment is what waits at the end.
fn walk(nodes: &[u8], follow: &mut [Set]) -> Fragment
    requires one_tree { (t : Tree ℕ) × (build 1 (map node_of nodes.now) [] ≡ some (t ∷ [])) × (size t ≤ leaf_limit) }
    requires few { length nodes.now ≤ node_limit }
    requires table { (set_bits ≤ length follow.old) × Empty follow.old }
    ensures { (t : Tree ℕ) → build 1 (map node_of nodes.now) [] ≡ some (t ∷ []) → State follow.new (result ∷ []) (t ∷ []) }
{
    let mut fragments = [Fragment::none(); rules::WAITING_LIMIT];
    let mut waiting = Waiting::on(&mut fragments);
    // The set of the next leaf's position alone. Each leaf moves it on, so that none is made anew.
    let mut alone = Set::of(1);
    for node in nodes {
        match Node::from(*node) {
            Node::Leaf => {
                waiting.push(Fragment::leaf(alone));
                alone = alone.moved();
            }
            Node::Empty => waiting.push(Fragment::empty()),
            Node::Cat => {
                let right = waiting.pop();
                let left = waiting.pop();
                bits::link(follow, left.stops, right.firsts);
                waiting.push(left.then(right));
            }
            Node::Union => {
                let right = waiting.pop();
                let left = waiting.pop();
                waiting.push(left.or(right));
            }
            Node::Star => {
                let inner = waiting.pop();
                bits::link(follow, inner.stops, inner.firsts);
                waiting.push(inner.starred());
            }
        }
    }
    waiting.pop()
}

// Puts each position into the set of the byte that its leaf takes.
fn put_letters(sheet: Sheet, letters: &mut [Set])
    requires { Empty letters.old × (letter_sets ≤ length letters.old) }
    ensures { LettersTo sheet.entry.bytes.now letters.new (leaf_count sheet.entry.bytes.now) }
{
    let n = sheet::leaf_count(sheet.bytes);
    for i in 0..n {
        let p = i + 1;
        letters[usize::from(sheet.byte_at(p))].insert(p);
    }
}

// The tables of the positions of a sheet.
#[derive(Drop)]
pub struct Tables {
    // Of each position, and of the start, the positions that may come next.
    pub follow: [Set; bits::SET_BITS],
    // The positions after which a word may end.
    pub stops: Set,
    // Of each byte up to the highest literal, the positions that take it.
    pub letters: [Set; LETTER_SETS],
}

impl Tables {
    // Of no sheet yet.
    pub fn new() -> Tables
        ensures { Blank result }
    {
        let none = Set::new();
        Tables {
            follow: [none; bits::SET_BITS],
            stops: none,
            letters: [none; LETTER_SETS],
        }
    }

    // Reads a sheet into tables of none, where they lie, so that no table is copied.
    pub fn read(&mut self, sheet: Sheet)
        requires { Blank self.old }
        ensures { (P : Pattern) → stands_for sheet.entry.bytes.now ≡ some P → TablesOf P self.new }
    {
        let whole = walk(sheet::nodes(sheet.bytes), &mut self.follow);
        self.follow[0] = whole.firsts;
        self.stops = whole.stops;
        put_letters(sheet, &mut self.letters);
    }

    // The tables of a sheet as a value, for a caller that may copy them.
    pub fn of(sheet: Sheet) -> Tables
        ensures { (P : Pattern) → stands_for sheet.entry.bytes.now ≡ some P → TablesOf P result }
    {
        let mut tables = Tables::new();
        tables.read(sheet);
        tables
    }

    // The positions that take a byte. Bytes above the highest literal share the set of 0, which no leaf takes either.
    pub fn taking(&self, byte: u8) -> Set
        ensures { (q : ℕ) → member result q ≡ has self.now.letters (letter_of byte) q }
    {
        let own = self.letters.get(usize::from(byte));
        *own.unwrap_or(&self.letters[0])
    }
}
