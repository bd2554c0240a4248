// Bytes to tokens with their places: what stands at a place of a text, and the walks over all tokens.
#![tactic(auto)]

ghost use Rattle.std.specs.Prelude.{◌≡◌, true, false, ◌+◌, ◌-◌, ◌<◌, ◌≤◌, length, get_or, drop, MatchOption, MatchResult, IfOk};
ghost use Rattle.std.proofs.Math.Option.{none, some};
ghost use Rattle.rules.specs.Limits.{text_limit};
ghost use Rattle.lexer.specs.Bytes.{left_parenthesis, backslash, left_brace, digit_zero, kind_of, is_digit};
ghost use Rattle.lexer.specs.Tokens.{starts, digit_at, number_at, no_number, bad_repeat, repeat_at, tokens_from};
ghost use Rattle.lexer.specs.Faults.{lexical};
ghost use Rattle.lexer.specs.Places.{starts_unit, unit_at, plain_at, DigitIs, FigureIs, closes_at, literal_with, LiteralFits, BracedIs, Taken, Faulty, Stepped, PassesAt};

use rules::{HIGHEST_BYTE, LEAF_LIMIT, LOWEST_BYTE, Refusal, TEXT_LIMIT, TextFault, refused_at};

// What a byte may be in a text: a literal by itself, one of the marks, or nothing.
#[derive(Clone, Copy, Debug, PartialEq, Eq)]
pub enum Kind {
    Plain,
    Mark,
    Refused,
}

// A literal with its repeat: the byte, the least and the greatest number of copies, and the place after it.
#[derive(Clone, Copy, Debug, PartialEq, Eq)]
pub struct Literal {
    pub byte: u8,
    pub least: usize,
    pub most: usize,
    pub next: usize,
}

// One or two digits: the value, and how many.
#[derive(Clone, Copy, Debug, PartialEq, Eq)]
pub struct Figure {
    pub value: usize,
    pub digits: usize,
}

// A step over a token: the place after it, and its leaves.
#[derive(Clone, Copy, Debug, PartialEq, Eq)]
pub struct Step {
    pub next: usize,
    pub leaves: usize,
}

// A text within the limit.
#[derive(Clone, Copy)]
pub struct Text<'a> {
    pub bytes: &'a [u8],
    pub ghost short: { length bytes.now ≤ text_limit },
}

fn starts_unit(b: u8) -> bool
    ensures { result ≡ starts_unit b }
{
    !matches!(b, b'|' | b'*' | b')')
}

// The test of one byte: all that asks for a byte's kind asks here.
fn kind_of(b: u8) -> Kind
    ensures { result ≡ kind_of b }
{
    match b {
        b'|' | b'*' | b'(' | b')' | b'\\' | b'{' | b'}' => Kind::Mark,
        LOWEST_BYTE..=HIGHEST_BYTE => Kind::Plain,
        _ => Kind::Refused,
    }
}

// What reads a literal is put into the function that asks for it, so that no answer goes by memory.
impl<'a> Text<'a> {
    // None if there are more bytes than the limit.
    pub fn new(bytes: &'a [u8]) -> Option<Text<'a>>
        ensures { MatchOption result (text_limit < length bytes.now) (λ t. (t.bytes.now ≡ bytes.now) × (length bytes.now ≤ text_limit)) }
    {
        if bytes.len() <= TEXT_LIMIT {
            Some(Text { bytes })
        } else {
            None
        }
    }

    pub fn len(self) -> usize
        ensures { result ≡ length self.entry.bytes.now }
    {
        self.bytes.len()
    }

    // Whether the byte b stands at a place.
    pub fn is(self, at: usize, b: u8) -> bool
        ensures { result ≡ starts (drop at self.entry.bytes.now) b }
    {
        self.bytes.get(at) == Some(&b)
    }

    // Whether a unit starts at a place.
    pub fn unit_at(self, at: usize) -> bool
        ensures { result ≡ unit_at (drop at self.entry.bytes.now) }
    {
        self.bytes.get(at).is_some_and(|b| starts_unit(*b))
    }

    // Whether a literal that is no mark stands at a place, with no repeat after it.
    pub fn plain_at(self, at: usize) -> bool
        ensures { result ≡ plain_at (drop at self.entry.bytes.now) }
    {
        match self.bytes.get(at) {
            Some(b) => kind_of(*b) == Kind::Plain && !self.is(at + 1, b'{'),
            None => false,
        }
    }

    // The value of the digit at a place.
    fn digit(self, at: usize) -> Option<usize>
        ensures { MatchOption result (digit_at (drop at self.entry.bytes.now) ≡ false) (DigitIs self.entry.bytes.now at) }
    {
        match self.bytes.get(at) {
            Some(b @ b'0'..=b'9') => Some(usize::from(*b - b'0')),
            _ => None,
        }
    }

    // The number at a place.
    fn figure_at(self, at: usize) -> Option<Figure>
        ensures { MatchOption result (number_at (drop at self.entry.bytes.now) ≡ no_number) (FigureIs self.entry.bytes.now at) }
    {
        let first = self.digit(at)?;
        Some(match self.digit(at + 1) {
            Some(second) => Figure {
                value: 10 * first + second,
                digits: 2,
            },
            None => Figure {
                value: first,
                digits: 1,
            },
        })
    }

    // Whether a comma and a brace stand at two places, and x is at most y.
    fn closes(self, i: usize, j: usize, x: usize, y: usize) -> bool
        ensures { result ≡ closes_at self.entry.bytes.now i j x y }
    {
        self.is(i, b',') && self.is(j, b'}') && x <= y
    }

    // The literal byte with the repeat whose brace stands at a place after it: a number, a comma, a number, a brace.
    #[inline(always)]
    #[tactic(auto, using(crate::proofs::Repeats::repeat_second))]
    fn braced(self, byte: u8, at: usize) -> Option<Literal>
        requires { starts (drop at self.bytes.now) left_brace ≡ true }
        ensures { MatchOption result (repeat_at (drop at self.entry.bytes.now) ≡ bad_repeat) (BracedIs self.entry.bytes.now byte at) }
    {
        let x = self.figure_at(at + 1)?;
        let y = self.figure_at(at + (x.digits + 2))?;
        let comma = at + (x.digits + 1);
        let brace = at + (x.digits + y.digits + 2);
        if !self.closes(comma, brace, x.value, y.value) {
            return None;
        }
        Some(Literal {
            byte,
            least: x.value,
            most: y.value,
            next: brace + 1,
        })
    }

    // The literal byte with the repeat that may stand at a place after it.
    #[inline(always)]
    fn repeated(self, byte: u8, at: usize) -> Result<Literal, Refusal>
        requires { at ≤ length self.bytes.now }
        ensures value { result ≡ literal_with byte at (repeat_at (drop at self.entry.bytes.now)) }
        ensures fits { IfOk result (LiteralFits (length self.entry.bytes.now) at) }
    {
        if self.is(at, b'{') {
            return self
                .braced(byte, at)
                .ok_or(refused_at(at, TextFault::RepeatFault));
        }
        Ok(Literal {
            byte,
            least: 1,
            most: 1,
            next: at,
        })
    }

    // The literal whose backslash stands at a place: the mark after it, with its repeat.
    #[inline(always)]
    #[tactic(auto, using(crate::proofs::Units::escaped_end, crate::proofs::Units::escaped_mark, crate::proofs::Units::escaped_other))]
    fn escaped(self, at: usize) -> Result<Literal, Refusal>
        requires { starts (drop at self.bytes.now) backslash ≡ true }
        ensures { MatchResult result (Taken self.entry.bytes.now at) (Faulty self.entry.bytes.now at) }
    {
        match self.bytes.get(at + 1) {
            Some(b) if kind_of(*b) == Kind::Mark => self.repeated(*b, at + 2),
            _ => Err(refused_at(at, TextFault::TextByte)),
        }
    }

    // The literal at a place where a unit other than a parenthesis starts, with its repeat.
    #[inline(always)]
    #[tactic(auto, using(crate::proofs::Units::literal_plain))]
    pub fn literal_at(self, at: usize) -> Result<Literal, Refusal>
        requires unit { unit_at (drop at self.bytes.now) ≡ true }
        requires not_open { starts (drop at self.bytes.now) left_parenthesis ≡ false }
        ensures { MatchResult result (Taken self.entry.bytes.now at) (Faulty self.entry.bytes.now at) }
    {
        let b = self.bytes[at];
        match kind_of(b) {
            Kind::Plain => self.repeated(b, at + 1),
            Kind::Mark if b == b'\\' => self.escaped(at),
            Kind::Mark => Err(refused_at(at, TextFault::RepeatFault)),
            Kind::Refused => Err(refused_at(at, TextFault::TextByte)),
        }
    }

    // Over the token at a place.
    #[tactic(auto, using(crate::proofs::Walks::step_open, crate::proofs::Walks::step_mark))]
    fn step_over(self, at: usize) -> Result<Step, Refusal>
        requires { at < length self.bytes.now }
        ensures { MatchResult result (Stepped self.entry.bytes.now at) (Faulty self.entry.bytes.now at) }
    {
        if self.unit_at(at) && !self.is(at, b'(') {
            let literal = self.literal_at(at)?;
            return Ok(Step {
                next: literal.next,
                leaves: literal.most,
            });
        }
        Ok(Step {
            next: at + 1,
            leaves: 0,
        })
    }

    // The walk of 11 and 19: the first fault among the tokens.
    pub fn first_fault(self) -> Result<(), Refusal>
        ensures { MatchResult result (λ _. lexical (tokens_from self.entry.bytes.now 0) ≡ none) (λ f. lexical (tokens_from self.entry.bytes.now 0) ≡ some f) }
    {
        let mut at = 0;
        while at < self.len() {
            at = self.step_over(at)?.next;
        }
        Ok(())
    }

    // The place of the literal whose leaves pass the limit.
    pub fn passing_place(self) -> usize
        ensures { PassesAt self.entry.bytes.now result }
    {
        let mut at = 0;
        let mut leaves = 0;
        while at < self.len() {
            let Ok(step) = self.step_over(at) else {
                return at;
            };
            leaves += step.leaves;
            if LEAF_LIMIT < leaves {
                return at;
            }
            at = step.next;
        }
        at
    }
}
