// The headway book: a network of lines run at intervals.
ghost use Rattle.std.specs.Prelude.{◌≡◌, ℕ, ◌<◌, ◌≤◌, [], length, IfSome, IfOk, Some, vec_capacity, MatchResult, OnOk};
ghost use Rattle.networks.specs.Networks.{Meaning};
ghost use Rattle.refusals.specs.Verdicts.{At, Judged, Verdict};
ghost use Rattle.refusals.specs.declared.Refusal.TheVariants.{OfBook};
ghost use Rattle.refusals.specs.declared.BookRefusal.{BookRefusal};
ghost use Rattle.timetable.specs.HeadwayBooks.{line, at_line, earliest_from, EarliestFrom, headway_book, Breaks, book_order, LineFits};
ghost use Rattle.timetable.specs.Departures.{book_lawful};

use crate::records::Line;
use crate::refilling::refill;
use networks::{DAY_END, Network};
use refusals::{BookRefusal, Refusal};
use std::alloc::{AllocError, Global};

#[derive(Drop)]
pub struct HeadwayBook {
    lines: Vec<Line>,
    ghost kept: { (r : BookRefusal) → Breaks lines.items r → ⊥ },
    ghost few: { length lines.items ≤ 1024 },
    ghost fits: { (k : ℕ) → k < length lines.items → LineFits (line lines.items k) },
    ghost room: { 1024 ≤ vec_capacity lines },
}

// The first rule that line k breaks, which is `l`.
fn check_line(lines: &[Line], k: usize, l: Line) -> Result<(), BookRefusal>
    requires within { k < length lines.now }
    requires here { l ≡ line lines.now k }
    ensures fits { OnOk result (LineFits l) }
    ensures answer { Judged OfBook book_order (At OfBook (Breaks lines.now) k) result }
{
    if l.from == l.to {
        return Err(BookRefusal::LineStops(k));
    }
    if l.interval == 0 || l.ride == 0 {
        return Err(BookRefusal::LineInterval(k));
    }
    if l.first > l.last || l.last > DAY_END || l.ride > DAY_END - l.last {
        return Err(BookRefusal::LineHours(k));
    }
    Ok(())
}

// The first rule that the lines break, by edge number and then in the order in which the rules are written.
fn check_lines(lines: &[Line]) -> Result<(), BookRefusal>
    ensures answer { Judged OfBook book_order (Breaks lines.now) result }
    ensures few { OnOk result (length lines.now ≤ 1024) }
    ensures fits { OnOk result ((k : ℕ) → k < length lines.now → LineFits (line lines.now k)) }
{
    if lines.len() > 1024 {
        return Err(BookRefusal::TooManyLines);
    }
    for (k, line) in lines.iter().enumerate() {
        check_line(lines, k, *line)?;
    }
    Ok(())
}

impl Line {
    // The departure to take at an instant, by rounding the wait up to whole intervals: no other at or after the instant is earlier.
    #[tactic(auto, using(crate::specs::Departures::is_earliest))]
    fn departure_from(self, instant: u32) -> Option<u32>
        requires { LineFits self }
        ensures answer { result ≡ earliest_from self instant }
        ensures law { EarliestFrom self instant result }
        ensures within { IfSome result (λ d. d ≤ self.last) }
    {
        let first = self.first as u64;
        let interval = self.interval as u64;
        let wait = (instant as u64).saturating_sub(first);
        let departure = first + wait.div_ceil(interval) * interval;
        if departure <= self.last as u64 {
            Some(departure as u32)
        } else {
            None
        }
    }
}

impl HeadwayBook {
    // The empty book, with room for every book that can be filled.
    pub fn new(heap: Global) -> Result<HeadwayBook, AllocError>
        ensures { IfOk result (λ b. b.lines.items ≡ []) }
    {
        let lines = Vec::with_capacity(heap, 1024)?;
        Ok(HeadwayBook { lines })
    }

    // Holds these lines in place of what was held, or refuses and stays as it is.
    pub fn fill(&mut self, lines: &[Line]) -> Result<(), Refusal>
        ensures answer { Verdict OfBook book_order (Breaks lines.now) result }
        ensures after { MatchResult result (λ _. self.new.lines.items ≡ lines.now) (λ _. self.new ≡ self.old) }
    {
        check_lines(lines)?;
        refill(&mut self.lines, lines);
        Ok(())
    }

    pub fn lines(&self) -> &[Line]
        ensures { result.now ≡ self.now.lines.items }
    {
        self.lines.as_slice()
    }

    fn line_at(&self, edge: u16) -> Option<Line>
        ensures answer { result ≡ at_line Some self.now.lines.items edge }
        ensures fits { IfSome result LineFits }
    {
        self.lines.get(edge as usize).copied()
    }

    // The earliest departure of a line at or after an instant.
    pub fn departure(&self, edge: u16, instant: u32) -> Option<u32>
        ensures answer { result ≡ at_line (λ l. earliest_from l instant) self.now.lines.items edge }
        ensures law { edge < length self.now.lines.items → EarliestFrom (line self.now.lines.items edge) instant result }
    {
        let line = self.line_at(edge)?;
        line.departure_from(instant)
    }
}

impl Network for HeadwayBook {
    ghost meaning = { λ b. headway_book b.lines.items };

    ghost lawful = { λ b. book_lawful b.lines.items b.few b.fits };

    fn count(&self) -> u16 {
        self.lines.len() as u16
    }

    fn ends(&self, edge: u16) -> Option<(u8, u8)> {
        let line = self.line_at(edge)?;
        Some((line.from, line.to))
    }

    fn lookup(&self, edge: u16, instant: u32) -> Option<u32> {
        let line = self.line_at(edge)?;
        let departure = line.departure_from(instant)?;
        Some(departure + line.ride)
    }
}
