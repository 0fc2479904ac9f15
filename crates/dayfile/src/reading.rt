// Unpacking a file into lists.
ghost use Rattle.std.specs.Prelude.{◌≡◌, ◌+◌, ◌*◌, ◌≤◌, length, take, drop, replicate};
ghost use Rattle.std.specs.List.{flat_map};
ghost use Rattle.dayformat.specs.Layout.{size};
ghost use Rattle.dayformat.specs.Faults.{order, Stand, Fault};
ghost use Rattle.dayformat.specs.Whole.{Fits, Whole};
ghost use Rattle.refusals.specs.Verdicts.{Verdict};
ghost use Rattle.refusals.specs.declared.Refusal.TheVariants.{OfFile};
ghost use Rattle.dayfile.specs.Records.{held, counts, SameLists};
ghost use Rattle.dayfile.specs.Calls.{Taken, Unpacked};

use crate::lists::Room;
use crate::stored::Stored;
use dayformat::Lengths;
use dayreader::check;
use refusals::Refusal;

// Reads n records of one kind that stand in the file from a place on, and answers the place behind them.
// The loop stays: after a zip of iter_mut and chunks_exact, a proof knows nothing of the list.
fn read_all<T: Stored<N>, const N: usize>(
    file: &[u8],
    from: usize,
    list: &mut [T],
    n: usize,
) -> usize
    requires room { n ≤ length list.old }
    requires stand { Stand file.now from (replicate n T.Stored.kind) (from + size T.Stored.kind * n) }
    ensures answer { result ≡ from + size T.Stored.kind * n }
    ensures after { flat_map T.Stored.code (take n list.new) ≡ take (size T.Stored.kind * n) (drop from file.now) }
    ensures rest { drop n list.new ≡ drop n list.old }
{
    let mut at = from;
    let front = &mut list[..n];
    for record in front.iter_mut() {
        *record = T::of_bytes(file[at..at + N].try_into().unwrap());
        at += N;
    }
    at
}

// Reads the records of a whole file into the fronts of the lists.
fn read_lists(file: &[u8], n: &Lengths, room: &mut Room)
    requires whole { Whole file.now n.now }
    requires fits { Fits n.now (counts (held room.old)) }
    ensures taken { Taken file.now (held room.old) (held room.new) n.now }
    ensures same { SameLists room.old room.new }
{
    let footpaths_from = read_all(file, 0, room.connections, n.connections);
    let lines_from = read_all(file, footpaths_from, room.footpaths, n.footpaths);
    let _end = read_all(file, lines_from, room.lines, n.lines);
}

// Takes the records of a file over into the fronts of the lists and answers how many there are of each kind, or leaves the lists as they were.
pub fn unpack(file: &[u8], room: &mut Room) -> Result<Lengths, Refusal>
    ensures answer { Verdict OfFile order (Fault file.now (counts (held room.old))) result }
    ensures after { Unpacked file.now (held room.old) (held room.new) result }
    ensures same { SameLists room.old room.new }
{
    let lengths = Lengths {
        connections: room.connections.len(),
        footpaths: room.footpaths.len(),
        lines: room.lines.len(),
    };
    let n = check(file, &lengths)?;
    read_lists(file, &n, room);
    Ok(n)
}
