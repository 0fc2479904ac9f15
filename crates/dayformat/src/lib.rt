// What a day file is made of: its kinds of record, and how many of each it holds.
#![tactic(auto)]

ghost use Rattle.std.specs.Prelude.{◌≡◌, ◌≤◌, ◌↔◌, IsTrue};
ghost use Rattle.dayformat.specs.Layout.{layout, size, Marks};

// The kinds of record, in the order in which they stand in a file, and the end mark.
#[derive(Clone, Copy, Debug, PartialEq, Eq, PartialOrd, Ord)]
pub enum Kind {
    Connection,
    Footpath,
    Line,
    End,
}

// How many connections, footpaths and lines there are, or have room.
#[derive(Clone, Copy, Debug, Default, PartialEq, Eq)]
pub struct Lengths {
    pub connections: usize,
    pub footpaths: usize,
    pub lines: usize,
}

impl Kind {
    // How many bytes a record of the kind has, with its mark.
    pub fn size(self) -> usize
        ensures { result ≡ size self }
    {
        match self {
            Kind::Connection => 14,
            Kind::Footpath => 8,
            Kind::Line => 20,
            Kind::End => 2,
        }
    }

    // The place of the kind in the order of a file, from 0: the variants stand in that order.
    pub fn turn(self) -> u8
        ensures { result ≡ (layout self).turn }
    {
        self as u8
    }

    // Whether a record of the kind may stand behind one of another kind.
    pub fn may_follow(self, earlier: Kind) -> bool
        ensures { IsTrue result ↔ ((layout earlier).turn ≤ (layout self).turn) }
    {
        earlier <= self
    }
}

// Two bytes that mark no kind of record.
#[derive(Clone, Copy, Debug, PartialEq, Eq)]
pub struct NoMark(pub [u8; 2]);

impl TryFrom<[u8; 2]> for Kind {
    type Error = NoMark;

    ghost try_from_gives = { Marks };

    fn try_from(bytes: [u8; 2]) -> Result<Kind, NoMark> {
        match &bytes {
            b"CN" => Ok(Kind::Connection),
            b"FP" => Ok(Kind::Footpath),
            b"HW" => Ok(Kind::Line),
            b"EN" => Ok(Kind::End),
            _ => Err(NoMark(bytes)),
        }
    }
}
