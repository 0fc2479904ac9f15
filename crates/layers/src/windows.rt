// The windows of a gate: up to sixteen, each of them a time during which an edge is shut.
ghost use Rattle.std.specs.Prelude.{◌≡◌, ◌∷◌, ◌++◌, [], All, MatchResult, option_copied, refl};
ghost use Rattle.std.specs.List.{find};
ghost use Rattle.refusals.specs.Verdicts.{Judged};
ghost use Rattle.refusals.specs.declared.Refusal.TheVariants.{OfWindow};
ghost use Rattle.layers.specs.Gates.{covers, gated, least_open, LeastOpen, UnfitWindow};
ghost use Rattle.layers.specs.Gated.{Ends, gated_lawful, gated_unchanged};

use crate::layer::Rule;
use arrayvec::ArrayVec;
use networks::{DAY_END, Network};
use refusals::WindowRefusal;

// The edge is shut from `from` on, and open again at `until`.
#[derive(Clone, Copy, Debug, Default, PartialEq, Eq)]
pub struct Window {
    pub edge: u16,
    pub from: u32,
    pub until: u32,
}

#[derive(Drop)]
pub struct Windows {
    list: ArrayVec<Window, 16>,
    ghost ending: { All Ends list.items },
}

// By hand, since no derive proves a ghost field.
impl Default for Windows {
    ghost is_default = { λ held. held.list.items ≡ [] };

    fn default() -> Windows {
        Windows {
            list: ArrayVec::new(),
        }
    }
}

impl Windows {
    // Adds a window for one of the edges below `edges`.
    pub fn add(&mut self, edges: u16, window: Window) -> Result<(), WindowRefusal>
        ensures answer { Judged OfWindow (30 ∷ 31 ∷ 32 ∷ []) (UnfitWindow edges self.old.list.items window) result }
        ensures after { MatchResult result (λ _. self.new.list.items ≡ self.old.list.items ++ window ∷ []) (λ _. self.new ≡ self.old) }
    {
        if self.list.is_full() {
            return Err(WindowRefusal::TooManyWindows);
        }
        if window.edge >= edges {
            return Err(WindowRefusal::WindowEdge);
        }
        if window.from >= window.until || window.until > DAY_END {
            return Err(WindowRefusal::WindowSpan);
        }
        self.list.push(window);
        Ok(())
    }

    // The least instant, not before the one asked, at which no window shuts the edge.
    #[tactic(auto, using(crate::proofs::Waits::on, crate::proofs::Waits::over, crate::specs::Gated::least_open_is))]
    pub fn opening(&self, edge: u16, instant: u32) -> u32
        ensures answer { result ≡ least_open self.now.list.items edge instant }
        ensures law { LeastOpen self.now.list.items edge instant result }
    {
        // From the end of one window to the end of another; each jump leaves fewer windows that end later.
        let mut open = instant;
        while let Some(window) = self.shutting(edge, open) {
            open = window.until;
        }
        open
    }

    // The first window that shuts the edge at the instant, if there is one.
    fn shutting(&self, edge: u16, instant: u32) -> Option<&Window>
        ensures { option_copied result ≡ find (covers edge instant) self.now.list.items }
    {
        self.list.iter().find(|window| window.covers(edge, instant))
    }
}

impl Rule for Windows {
    ghost over = { λ r. gated r.list.items };

    ghost same_count = { λ _ _. refl };

    ghost same_ends = { λ _ _. refl };

    ghost lawful = { λ r m. gated_lawful r.list.items m r.ending };

    ghost unchanged = { λ r m. gated_unchanged r.list.items m };

    fn lookup<N: Network>(&self, below: &N, edge: u16, instant: u32) -> Option<u32> {
        below.lookup(edge, self.opening(edge, instant))
    }
}

impl Window {
    // Whether the window shuts the edge at the instant.
    fn covers(&self, edge: u16, instant: u32) -> bool
        ensures { result ≡ covers edge instant self.now }
    {
        self.edge == edge && self.from <= instant && instant < self.until
    }
}
