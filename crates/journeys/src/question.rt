// What a traveller asks: where from, where to, when to start, and when to arrive at the latest.
ghost use Rattle.std.specs.Prelude.{◌≡◌, ◌<◌, ◌≤◌, ◌≢◌, [], ◌∷◌, IfOk};
ghost use Rattle.networks.specs.Networks.{day_end};
ghost use Rattle.refusals.specs.Verdicts.{Verdict};
ghost use Rattle.refusals.specs.declared.Refusal.TheVariants.{OfQuestion};
ghost use Rattle.journeys.specs.Questions.{Reason};

use networks::DAY_END;
use refusals::{QuestionRefusal, Refusal};

#[derive(Clone, Copy, Debug, PartialEq, Eq)]
pub struct Question {
    origin: u8,
    destination: u8,
    start: u32,
    latest: u32,
    ghost stops: { (origin < 256) × (destination < 256) },
    ghost apart: { origin ≢ destination },
    ghost by_day_end: { latest ≤ day_end },
    ghost in_order: { start ≤ latest },
}

impl Question {
    pub fn new(origin: u8, destination: u8, start: u32, latest: u32) -> Result<Question, Refusal>
        ensures answer { IfOk result (λ q. (q.origin ≡ origin) × (q.destination ≡ destination) × (q.start ≡ start) × (q.latest ≡ latest)) }
        ensures refusal { Verdict OfQuestion (40 ∷ 41 ∷ 42 ∷ []) (Reason origin destination start latest) result }
    {
        if origin == destination {
            return Err(QuestionRefusal::OriginIsDestination.into());
        }
        if latest > DAY_END {
            return Err(QuestionRefusal::LatestPastDay.into());
        }
        if start > latest {
            return Err(QuestionRefusal::StartAfterLatest.into());
        }
        Ok(Question {
            origin,
            destination,
            start,
            latest,
        })
    }

    pub fn origin(&self) -> u8
        ensures { result ≡ self.now.origin }
    {
        self.origin
    }

    pub fn destination(&self) -> u8
        ensures { result ≡ self.now.destination }
    {
        self.destination
    }

    pub fn start(&self) -> u32
        ensures { result ≡ self.now.start }
    {
        self.start
    }

    pub fn latest(&self) -> u32
        ensures { result ≡ self.now.latest }
    {
        self.latest
    }
}
