// A record of a day file as the reader hands it out, and the reader itself.
ghost use Rattle.std.specs.Prelude.{◌≤◌, length};

use dayformat::Kind;

// The file's own bytes of one record, with the mark.
#[derive(Clone, Copy)]
pub enum Record<'a> {
    Connection(&'a [u8]),
    Footpath(&'a [u8]),
    Line(&'a [u8]),
    End(&'a [u8]),
}

// A file, the place of the next mark in it, and the kind of the record that was handed out last.
#[derive(Clone, Copy)]
pub struct Reader<'a> {
    pub(crate) file: &'a [u8],
    pub(crate) at: usize,
    pub(crate) latest: Kind,
    ghost within: { at ≤ length file.now },
}
