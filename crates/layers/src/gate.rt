// The gate layer: an edge is shut while one of its windows lasts, and who meets a shut edge waits until it opens.
ghost use Rattle.std.specs.Prelude.{◌≡◌, [], ◌∷◌, ◌++◌, MatchResult};
ghost use Rattle.refusals.specs.Verdicts.{Verdict};
ghost use Rattle.refusals.specs.declared.Refusal.TheVariants.{OfWindow};
ghost use Rattle.layers.specs.Gates.{least_open, LeastOpen, UnfitWindow};
ghost use Rattle.layers.specs.Piles.{windows_of};

use crate::layer::Layer;
pub use crate::windows::{Window, Windows};
use networks::Network;
use refusals::Refusal;

pub type Gate<N> = Layer<N, Windows>;

// `add` stands at each kind, as `late.rt` says.
impl<N: Network> Layer<N, Windows> {
    // Adds a window; a refusal leaves the gate as it was.
    pub fn add(&mut self, window: Window) -> Result<(), Refusal>
        ensures answer { Verdict OfWindow (30 ∷ 31 ∷ 32 ∷ []) (UnfitWindow (N.Network.meaning self.old.below).count (windows_of self.old) window) result }
        ensures after { MatchResult result (λ _. windows_of self.new ≡ windows_of self.old ++ window ∷ []) (λ _. self.new ≡ self.old) }
        ensures same { self.new.below ≡ self.old.below }
    {
        let edges = self.count();
        self.rule.add(edges, window)?;
        Ok(())
    }

    // The least instant, not before the one asked, at which the edge is not shut.
    pub fn opening(&self, edge: u16, instant: u32) -> u32
        ensures answer { LeastOpen (windows_of self.now) edge instant result }
        ensures law { result ≡ least_open (windows_of self.now) edge instant }
    {
        self.rule.opening(edge, instant)
    }
}
