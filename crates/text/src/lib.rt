// Expression text to nodes and literals: alternation, sequence and unit read a text and store both as they go.
#![tactic(auto)]

ghost use Rattle.std.specs.Prelude.{◌≡◌, true, false, ℕ, ◌+◌, ◌<◌, ◌≤◌, ◌∷◌, [], length, drop, replicate, MatchResult};
ghost use Rattle.rules.specs.Limits.{open_limit, count_limit, most_copies, nodes_a_byte};
ghost use Rattle.lexer.specs.Bytes.{left_parenthesis};
ghost use Rattle.lexer.specs.Tokens.{starts};
ghost use Rattle.lexer.specs.Places.{unit_at};
ghost use Rattle.sheet.specs.Nodes.{leaf_node};
ghost use Rattle.sheet.specs.Kinds.{byte_of};
ghost use Rattle.sheet.specs.Make.{postorder};
ghost use Rattle.repeats.specs.Copies.{copies};
ghost use Rattle.text.specs.Walk.{fault, parse};
ghost use Rattle.text.specs.Reads.{Stored, Fresh, Begun, state, Fails, UnitRead, SeqRead, AltRead, StarsRead, Whole};

use buffers::Tally;
use lexer::{Literal, Text};
use repeats::repeat;
use rules::{LEAF_LIMIT, NODE_LIMIT, OPEN_LIMIT, Refusal, TextFault, refused_at};
use sheet::Node;

// What has been made of a text so far: the nodes of its tree in postorder, and its leaves from left to right.
#[derive(Clone, Copy)]
pub struct Draft {
    pub nodes: Tally<NODE_LIMIT>,
    pub literals: Tally<LEAF_LIMIT>,
}

impl Draft {
    pub fn new() -> Self
        ensures { Fresh result }
    {
        Draft {
            nodes: Tally::new(),
            literals: Tally::new(),
        }
    }

    // A node that is no leaf.
    fn node(&mut self, node: Node)
        requires { self.old.nodes.count < count_limit }
        ensures { Stored self.old self.new (byte_of node ∷ []) [] }
    {
        self.nodes.push(node.byte());
    }

    // A leaf of one byte.
    fn leaf(&mut self, byte: u8)
        requires { (self.old.nodes.count < count_limit) × (self.old.literals.count < count_limit) }
        ensures { Stored self.old self.new (leaf_node ∷ []) (byte ∷ []) }
    {
        self.literals.push(byte);
        self.nodes.push(Node::Leaf.byte());
    }

    // The copies of a literal.
    fn copies(&mut self, literal: Literal)
        requires room { (self.old.nodes.count + nodes_a_byte ≤ count_limit) × (self.old.literals.count + most_copies ≤ count_limit) }
        requires repeat { (literal.least ≤ literal.most) × (literal.most ≤ most_copies) }
        ensures { Stored self.old self.new (postorder (copies literal.byte literal.least literal.most)) (replicate literal.most literal.byte) }
    {
        self.literals.push_times(literal.byte, literal.most);
        repeat(&mut self.nodes, literal.least, literal.most);
    }
}

// The stars that follow a unit, mostly none; the place after them.
fn stars(text: Text, draft: &mut Draft, from: usize) -> usize
    requires { Begun (length text.bytes.now) (state from draft.old) }
    ensures { StarsRead text.entry.bytes.now (state from draft.old) (state result draft.new) }
{
    if !text.is(from, b'*') {
        return from;
    }
    let mut place = from;
    while text.is(place, b'*') {
        draft.node(Node::Star);
        place += 1;
    }
    place
}

// A literal with its repeat and its stars; most literals are one plain byte, which its callers take without a call.
#[inline(always)]
fn literal(text: Text, draft: &mut Draft, place: usize) -> Result<usize, Refusal>
    requires begun { Begun (length text.bytes.now) (state place draft.old) }
    requires unit { unit_at (drop place text.bytes.now) ≡ true }
    requires not_open { starts (drop place text.bytes.now) left_parenthesis ≡ false }
    ensures { (d : ℕ) → UnitRead text.entry.bytes.now d (state place draft.old) draft.new result }
{
    if text.plain_at(place) {
        draft.leaf(text.bytes[place]);
        return Ok(stars(text, draft, place + 1));
    }
    written_out(text, draft, place)
}

// The copies of a literal with its repeat, whether or not it has one, and its stars.
#[inline(never)]
fn written_out(text: Text, draft: &mut Draft, place: usize) -> Result<usize, Refusal>
    requires begun { Begun (length text.bytes.now) (state place draft.old) }
    requires unit { unit_at (drop place text.bytes.now) ≡ true }
    requires not_open { starts (drop place text.bytes.now) left_parenthesis ≡ false }
    ensures { (d : ℕ) → UnitRead text.entry.bytes.now d (state place draft.old) draft.new result }
{
    let literal = text.literal_at(place)?;
    draft.copies(literal);
    Ok(stars(text, draft, literal.next))
}

// The refusal where no unit starts: 13 before 12 at a closed parenthesis, 14 before 12 at the end.
fn missing(text: Text, place: usize, allowed: usize) -> Refusal
    requires inside { place ≤ length text.bytes.now }
    requires no_unit { unit_at (drop place text.bytes.now) ≡ false }
    ensures { Fails text.entry.bytes.now allowed place result }
{
    let fault = match (text.bytes.get(place), allowed == OPEN_LIMIT) {
        (None, false) => TextFault::OpenUnclosed,
        (Some(b')'), true) => TextFault::CloseUnopened,
        _ => TextFault::OperandMissing,
    };
    refused_at(place, fault)
}

// An alternation: its sequences, each after the first with the union after it.
#[cycle(alternation_sequence_unit)]
#[tactic(auto, using(crate::proofs::Parts::alt_more))]
fn alternation(text: Text, draft: &mut Draft, from: usize, allowed: usize) -> Result<usize, Refusal>
    requires begun { Begun (length text.bytes.now) (state from draft.old) }
    requires few { allowed ≤ open_limit }
    ensures { AltRead text.entry.bytes.now allowed (state from draft.old) draft.new result }
{
    let first = sequence(text, draft, from, allowed);
    let Ok(mut place) = first else {
        return first;
    };
    while text.is(place, b'|') {
        let r = sequence(text, draft, place + 1, allowed);
        let Ok(next) = r else {
            return r;
        };
        draft.node(Node::Union);
        place = next;
    }
    Ok(place)
}

// A sequence: its units, each after the first with the concatenation after it.
#[inline(always)]
#[cycle(alternation_sequence_unit)]
#[tactic(auto, using(crate::proofs::Parts::seq_more))]
fn sequence(text: Text, draft: &mut Draft, from: usize, allowed: usize) -> Result<usize, Refusal>
    requires begun { Begun (length text.bytes.now) (state from draft.old) }
    requires few { allowed ≤ open_limit }
    ensures { SeqRead text.entry.bytes.now allowed (state from draft.old) draft.new result }
{
    let first = unit(text, draft, from, allowed);
    let Ok(mut place) = first else {
        return first;
    };
    while text.unit_at(place) {
        let r = unit(text, draft, place, allowed);
        let Ok(next) = r else {
            return r;
        };
        draft.node(Node::Cat);
        place = next;
    }
    Ok(place)
}

// A unit: the empty word, an alternation in parentheses or a literal, and the stars after it.
#[inline(always)]
#[cycle(alternation_sequence_unit)]
fn unit(text: Text, draft: &mut Draft, place: usize, allowed: usize) -> Result<usize, Refusal>
    requires begun { Begun (length text.bytes.now) (state place draft.old) }
    requires few { allowed ≤ open_limit }
    ensures { UnitRead text.entry.bytes.now allowed (state place draft.old) draft.new result }
{
    if text.is(place, b'(') {
        if allowed == 0 {
            return Err(refused_at(place, TextFault::OpenDeep));
        }
        if text.is(place + 1, b')') {
            draft.node(Node::Empty);
            return Ok(stars(text, draft, place + 2));
        }
        let r = alternation(text, draft, place + 1, allowed - 1);
        let Ok(next) = r else {
            return r;
        };
        if text.is(next, b')') {
            return Ok(stars(text, draft, next + 1));
        }
        return Err(refused_at(next, TextFault::OpenUnclosed));
    }
    if text.unit_at(place) {
        return literal(text, draft, place);
    }
    Err(missing(text, place, allowed))
}

// Reads a whole text.
pub fn read_text(text: Text) -> Result<Draft, Refusal>
    ensures { MatchResult result (Whole text.entry.bytes.now) (λ k. parse text.entry.bytes.now ≡ fault k) }
{
    let mut draft = Draft::new();
    let place = alternation(text, &mut draft, 0, OPEN_LIMIT)?;
    if text.is(place, b')') {
        return Err(refused_at(place, TextFault::CloseUnopened));
    }
    Ok(draft)
}
