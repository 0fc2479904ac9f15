// Both round trips: reading a file and writing it again, and writing records and reading them again.
#![tactic(auto)]

ghost use Rattle.std.specs.Prelude.{◌≡◌};
ghost use Rattle.refusals.specs.Verdicts.{Verdict};
ghost use Rattle.refusals.specs.declared.Refusal.TheVariants.{OfFile};
ghost use Rattle.dayfile.specs.Records.{listed, held, counts, encoding, SameLists};
ghost use Rattle.dayrounds.specs.Rounds.{both_orders, Blocked, Rewritten, Reread, Holds};

use dayfile::{Lists, Room, pack, unpack};
use dayformat::Lengths;
use refusals::{FileRefusal, Refusal};

// Unpacks a file and packs what it holds into a buffer: the same bytes.
pub fn repack(file: &[u8], room: &mut Room, buffer: &mut [u8]) -> Result<usize, Refusal>
    ensures answer { Verdict OfFile both_orders (Blocked file.now (counts (held room.old)) buffer.old) result }
    ensures after { Rewritten file.now buffer.old buffer.new (held room.old) (held room.new) result }
    ensures same { SameLists room.old room.new }
{
    if buffer.len() < file.len() {
        return Err(FileRefusal::BufferTooShort.into());
    }
    let n = unpack(file, room)?;
    pack(&room.front(&n), buffer)
}

// Packs records into a buffer and unpacks it into three other lists: the same records.
pub fn pack_and_reread(
    lists: &Lists,
    buffer: &mut [u8],
    again: &mut Room,
) -> Result<Lengths, Refusal>
    ensures answer { Verdict OfFile both_orders (Blocked (encoding (listed lists.now)) (counts (held again.old)) buffer.old) result }
    ensures written { Holds (encoding (listed lists.now)) buffer.old buffer.new }
    ensures after { Reread buffer.old (listed lists.now) (held again.old) (held again.new) result }
    ensures same { SameLists again.old again.new }
{
    let n = pack(lists, buffer)?;
    unpack(&buffer[..n], again)
}
