// Where a list of edges has led from the origin and the start of a question.
ghost use Rattle.std.specs.Prelude.{ℕ, List, []};
ghost use Rattle.networks.specs.Networks.{Meaning};
ghost use Rattle.journeys.specs.declared.question.Question.{Question};
ghost use Rattle.branches.specs.Following.{At, Advanced};

use journeys::question::Question;
use journeys::walks::take_edge;
use networks::Network;
use stops::StopSet;

// The stop and the instant that the edges reach, and the stops that lie behind.
#[derive(Clone, Copy)]
pub(crate) struct Position {
    pub stop: u8,
    pub instant: u32,
    pub behind: StopSet,
}

impl Position {
    pub fn at_origin(question: &Question) -> Position
        ensures { (m : Meaning) → At m question.now [] result }
    {
        Position {
            stop: question.origin(),
            instant: question.start(),
            behind: StopSet::empty(),
        }
    }

    // Where an edge leads on to, if it can be taken and no stop comes again.
    pub fn advance<N: Network>(self, network: &N, edge: u16) -> Option<Position>
        ensures { (q : Question) (p : List ℕ) → At (N.Network.meaning network.now) q p self → Advanced (N.Network.meaning network.now) q p edge result }
    {
        let step = take_edge(network, Some(self.stop), self.instant, edge).ok()?;
        if step.to == self.stop || self.behind.contains(step.to) {
            return None;
        }
        let mut behind = self.behind;
        behind.insert(self.stop);
        Some(Position {
            stop: step.to,
            instant: step.arrival,
            behind,
        })
    }
}
