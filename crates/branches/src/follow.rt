// Whether a list of edges is a simple journey of a question.
ghost use Rattle.branches.specs.Following.{Followed, Arrives};

use crate::position::Position;
use journeys::question::Question;
use networks::Network;

// Where and when the edges lead from the origin and the start, if each can be taken and no stop comes again.
fn follow<N: Network>(network: &N, question: &Question, edges: &[u16]) -> Option<Position>
    ensures { Followed (N.Network.meaning network.now) question.now edges.now result }
{
    let mut position = Position::at_origin(question);
    for edge in edges {
        position = position.advance(network, *edge)?;
    }
    Some(position)
}

// The arrival of the edges, if they are a simple journey of the question.
pub fn simple_arrival<N: Network>(network: &N, question: &Question, edges: &[u16]) -> Option<u32>
    ensures { Arrives (N.Network.meaning network.now) question.now edges.now result }
{
    let position = follow(network, question, edges)?;
    if position.stop != question.destination() || position.instant > question.latest() {
        return None;
    }
    Some(position.instant)
}
