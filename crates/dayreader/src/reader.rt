// Reading a day file record by record.
ghost use Rattle.std.specs.Prelude.{◌≡◌};
ghost use Rattle.refusals.specs.Verdicts.{Verdict};
ghost use Rattle.refusals.specs.declared.Refusal.TheVariants.{OfFile};
ghost use Rattle.dayformat.specs.Faults.{order, Here, Finds};
ghost use Rattle.dayreader.specs.Reads.{Front, Reads, kind_of, part};

use crate::record::{Reader, Record};
use dayformat::Kind;
use refusals::{FileRefusal, Refusal};

impl<'a> Record<'a> {
    // The record of a kind with these bytes.
    fn of(kind: Kind, bytes: &'a [u8]) -> Record<'a>
        ensures kind { kind_of result ≡ kind }
        ensures bytes { part result ≡ bytes.now }
    {
        match kind {
            Kind::Connection => Record::Connection(bytes),
            Kind::Footpath => Record::Footpath(bytes),
            Kind::Line => Record::Line(bytes),
            Kind::End => Record::End(bytes),
        }
    }

    // The kind of the record.
    pub fn kind(&self) -> Kind
        ensures { result ≡ kind_of self.now }
    {
        match self {
            Record::Connection(_) => Kind::Connection,
            Record::Footpath(_) => Kind::Footpath,
            Record::Line(_) => Kind::Line,
            Record::End(_) => Kind::End,
        }
    }
}

impl<'a> Reader<'a> {
    // A reader at the front of a file.
    pub fn new(file: &'a [u8]) -> Reader<'a>
        ensures { Front file.now result }
    {
        Reader {
            file,
            at: 0,
            latest: Kind::Connection,
        }
    }

    // The next record. The end mark is handed out again and again.
    pub fn next_record(&mut self) -> Result<Record<'a>, Refusal>
        ensures answer { Verdict OfFile order (Here self.old.file.now self.old.at self.old.latest) result }
        ensures after { Reads self.old result self.new }
    {
        let kind = self.next_kind()?;
        let part = &self.file[self.at..self.at + kind.size()];
        self.latest = kind;
        if kind != Kind::End {
            self.at += part.len();
        }
        Ok(Record::of(kind, part))
    }

    // The kind of the next record, or the first reason against it.
    fn next_kind(&self) -> Result<Kind, FileRefusal>
        ensures { Finds self.now.file.now self.now.at self.now.latest result }
    {
        let rest = &self.file[self.at..];
        let mark = rest
            .first_chunk::<2>()
            .ok_or(FileRefusal::EndsEarly(self.at))?;
        // Not `.map_err(..)?`: behind it the proof of what is answered did not close, which does behind this.
        let Ok(kind) = Kind::try_from(*mark) else {
            return Err(FileRefusal::UnknownMark(self.at));
        };
        if rest.len() < kind.size() {
            return Err(FileRefusal::EndsEarly(self.at));
        }
        if !kind.may_follow(self.latest) {
            return Err(FileRefusal::KindOutOfOrder(self.at));
        }
        if kind == Kind::End && rest.len() > 2 {
            return Err(FileRefusal::BytesAfterEnd(self.at));
        }
        Ok(kind)
    }
}
