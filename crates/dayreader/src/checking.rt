// Checking a file before anything of it is taken over.
ghost use Rattle.std.specs.Prelude.{◌≡◌};
ghost use Rattle.refusals.specs.Verdicts.{Verdict};
ghost use Rattle.refusals.specs.declared.Refusal.TheVariants.{OfFile};
ghost use Rattle.dayformat.specs.Faults.{order, Fault};
ghost use Rattle.dayformat.specs.Whole.{Added};
ghost use Rattle.dayreader.specs.Reads.{Found};

use crate::record::Reader;
use dayformat::{Kind, Lengths};
use refusals::{FileRefusal, Refusal};

// One record more of a kind, if its list has room.
// The match stays: closures that read and write the three counts would need the same arms.
fn one_more(n: Lengths, kind: Kind, room: &Lengths) -> Option<Lengths>
    ensures { Added room.now n kind result }
{
    match kind {
        Kind::Connection if n.connections < room.connections => Some(Lengths {
            connections: n.connections + 1,
            ..n
        }),
        Kind::Footpath if n.footpaths < room.footpaths => Some(Lengths {
            footpaths: n.footpaths + 1,
            ..n
        }),
        Kind::Line if n.lines < room.lines => Some(Lengths {
            lines: n.lines + 1,
            ..n
        }),
        Kind::End => Some(n),
        _ => None,
    }
}

// How many records of each kind a file holds, if there is room for them.
pub fn check(file: &[u8], room: &Lengths) -> Result<Lengths, Refusal>
    ensures answer { Verdict OfFile order (Fault file.now room.now) result }
    ensures law { Found file.now room.now result }
{
    let mut reader = Reader::new(file);
    let mut n = Lengths::default();
    loop {
        let at = reader.at;
        let kind = reader.next_record()?.kind();
        if kind == Kind::End {
            return Ok(n);
        }
        n = one_more(n, kind, room).ok_or(FileRefusal::ListFull(at))?;
    }
}
