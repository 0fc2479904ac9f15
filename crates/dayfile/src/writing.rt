// Packing lists into a file.
ghost use Rattle.std.specs.Prelude.{◌≡◌, ◌+◌, ◌≤◌, [], ◌∷◌, length};
ghost use Rattle.std.specs.List.{flat_map};
ghost use Rattle.refusals.specs.Verdicts.{Verdict};
ghost use Rattle.refusals.specs.declared.Refusal.TheVariants.{OfFile};
ghost use Rattle.dayfile.specs.Records.{listed, encoding};
ghost use Rattle.dayfile.specs.Wrote.{Wrote};
ghost use Rattle.dayfile.specs.Calls.{Short, Written, Packed};

use crate::lists::Lists;
use crate::stored::{Stored, put};
use refusals::{FileRefusal, Refusal};

// Writes records one after another from a place on, and answers the place behind them.
// The loop stays: after a fold whose closure writes to the buffer, a proof knows nothing of it.
fn write_all<T: Stored<N>, const N: usize>(list: &[T], buffer: &mut [u8], from: usize) -> usize
    requires { from + length (flat_map T.Stored.code list.now) ≤ length buffer.old }
    ensures { Wrote buffer.old from (flat_map T.Stored.code list.now) result buffer.new }
{
    let mut at = from;
    for record in list {
        at = put(&record.to_bytes(), buffer, at);
    }
    at
}

// Writes the file of three lists at a buffer's front, and answers how many bytes it has.
fn write_lists(lists: &Lists, buffer: &mut [u8]) -> usize
    requires { length (encoding (listed lists.now)) ≤ length buffer.old }
    ensures { Written (encoding (listed lists.now)) buffer.old buffer.new result }
{
    let footpaths_from = write_all(lists.connections, buffer, 0);
    let lines_from = write_all(lists.footpaths, buffer, footpaths_from);
    let end = write_all(lists.lines, buffer, lines_from);
    put(b"EN", buffer, end)
}

// Writes three lists as a file at a buffer's front and answers how many bytes it has, or leaves the buffer as it was.
pub fn pack(lists: &Lists, buffer: &mut [u8]) -> Result<usize, Refusal>
    ensures answer { Verdict OfFile (6 ∷ []) (Short (encoding (listed lists.now)) buffer.old) result }
    ensures after { Packed (encoding (listed lists.now)) buffer.old buffer.new result }
{
    if (buffer.len() as u128) < lists.packed_size() {
        return Err(FileRefusal::BufferTooShort.into());
    }
    Ok(write_lists(lists, buffer))
}
