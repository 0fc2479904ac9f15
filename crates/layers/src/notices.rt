// The notices of a late layer: up to thirty-two, at most one for an edge.
ghost use Rattle.std.specs.Prelude.{◌≡◌, ◌∷◌, ◌++◌, [], Some, MatchResult, refl};
ghost use Rattle.refusals.specs.Verdicts.{Judged};
ghost use Rattle.refusals.specs.declared.Refusal.TheVariants.{OfNotice};
ghost use Rattle.layers.specs.Delays.{TheNotice, Once, seconds_of, later, delayed, UnfitNotice};
ghost use Rattle.layers.specs.Delayed.{delayed_lawful, delayed_unchanged};

use crate::layer::Rule;
use arrayvec::ArrayVec;
use networks::{DAY_END, Network};
use refusals::NoticeRefusal;

// The edge is reached so many seconds later.
#[derive(Clone, Copy, Debug, Default, PartialEq, Eq)]
pub struct Notice {
    pub edge: u16,
    pub seconds: u32,
}

#[derive(Drop)]
pub struct Notices {
    list: ArrayVec<Notice, 32>,
    ghost once: { Once list.items },
}

// By hand, since no derive proves a ghost field.
impl Default for Notices {
    ghost is_default = { λ held. held.list.items ≡ [] };

    fn default() -> Notices {
        Notices {
            list: ArrayVec::new(),
        }
    }
}

impl Notices {
    // Adds a notice for one of the edges below `edges`.
    #[tactic(auto, using(crate::specs::Delayed::once_more))]
    pub fn add(&mut self, edges: u16, notice: Notice) -> Result<(), NoticeRefusal>
        ensures answer { Judged OfNotice (33 ∷ 34 ∷ 35 ∷ 36 ∷ []) (UnfitNotice edges self.old.list.items notice) result }
        ensures after { MatchResult result (λ _. self.new.list.items ≡ self.old.list.items ++ notice ∷ []) (λ _. self.new ≡ self.old) }
    {
        if self.list.is_full() {
            return Err(NoticeRefusal::TooManyNotices);
        }
        if notice.edge >= edges {
            return Err(NoticeRefusal::NoticeEdge);
        }
        if self.delay(notice.edge).is_some() {
            return Err(NoticeRefusal::NoticeRepeated);
        }
        if notice.seconds > 86_400 {
            return Err(NoticeRefusal::NoticeTooLong);
        }
        self.list.push(notice);
        Ok(())
    }

    // The seconds of the edge's notice, if it has one.
    #[tactic(auto, using(crate::specs::Delayed::the_notice))]
    pub fn delay(&self, edge: u16) -> Option<u32>
        ensures answer { result ≡ seconds_of self.now.list.items edge }
        ensures law { TheNotice self.now.list.items edge result }
    {
        delay_in(&self.list, edge)
    }
}

// The seconds of the first notice of the edge.
fn delay_in(notices: &[Notice], edge: u16) -> Option<u32>
    ensures { result ≡ seconds_of notices.now edge }
{
    notices
        .iter()
        .find(|notice| notice.edge == edge)
        .map(|notice| notice.seconds)
}

impl Rule for Notices {
    ghost over = { λ r. delayed r.list.items };

    ghost same_count = { λ _ _. refl };

    ghost same_ends = { λ _ _. refl };

    ghost lawful = { λ r. delayed_lawful r.list.items };

    ghost unchanged = { λ r m. delayed_unchanged r.list.items m };

    fn lookup<N: Network>(&self, below: &N, edge: u16, instant: u32) -> Option<u32> {
        let arrival = below.lookup(edge, instant)?;
        self.delay(edge)
            .map_or(Some(arrival), |seconds| later(arrival, seconds))
    }
}

// The arrival so many seconds later, if that is within the day.
fn later(arrival: u32, seconds: u32) -> Option<u32>
    ensures { result ≡ later (Some seconds) (Some arrival) }
{
    arrival
        .checked_add(seconds)
        .filter(|later| *later <= DAY_END)
}
