// The late layer: an edge with a notice is reached later by the seconds of that notice.
ghost use Rattle.std.specs.Prelude.{◌≡◌, [], ◌∷◌, ◌++◌, MatchResult};
ghost use Rattle.refusals.specs.Verdicts.{Verdict};
ghost use Rattle.refusals.specs.declared.Refusal.TheVariants.{OfNotice};
ghost use Rattle.layers.specs.Delays.{TheNotice, seconds_of, UnfitNotice};
ghost use Rattle.layers.specs.Piles.{notices_of};

use crate::layer::Layer;
pub use crate::notices::{Notice, Notices};
use networks::Network;
use refusals::Refusal;

pub type Late<N> = Layer<N, Notices>;

// `add` stands at each kind: one for all would take the reasons, their order and what is held from members of the trait.
impl<N: Network> Layer<N, Notices> {
    // Adds a notice; a refusal leaves the layer as it was.
    pub fn add(&mut self, notice: Notice) -> Result<(), Refusal>
        ensures answer { Verdict OfNotice (33 ∷ 34 ∷ 35 ∷ 36 ∷ []) (UnfitNotice (N.Network.meaning self.old.below).count (notices_of self.old) notice) result }
        ensures after { MatchResult result (λ _. notices_of self.new ≡ notices_of self.old ++ notice ∷ []) (λ _. self.new ≡ self.old) }
        ensures same { self.new.below ≡ self.old.below }
    {
        let edges = self.count();
        self.rule.add(edges, notice)?;
        Ok(())
    }

    // The seconds of the edge's notice, if it has one.
    pub fn delay(&self, edge: u16) -> Option<u32>
        ensures answer { TheNotice (notices_of self.now) edge result }
        ensures law { result ≡ seconds_of (notices_of self.now) edge }
    {
        self.rule.delay(edge)
    }
}
