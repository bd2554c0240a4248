// The kinds of node, and the byte of each.
ghost use Rattle.std.specs.Prelude.{◌≡◌};
ghost use Rattle.sheet.specs.Kinds.{byte_of, Reads};

#[derive(Clone, Copy, Debug, PartialEq, Eq)]
pub enum Node {
    Leaf = 0,
    Empty = 1,
    Cat = 2,
    Union = 3,
    Star = 4,
}

impl Node {
    // The byte that stands for it in a sheet.
    pub fn byte(self) -> u8
        ensures { result ≡ byte_of self }
    {
        self as u8
    }
}

// What a byte is read as. A byte above that of a star is no node; it counts as a star, and the test of a sheet has refused it with 23.
impl From<u8> for Node {
    fn from(byte: u8) -> Node
        ensures { Reads result byte }
    {
        match byte {
            0 => Node::Leaf,
            1 => Node::Empty,
            2 => Node::Cat,
            3 => Node::Union,
            _ => Node::Star,
        }
    }
}
