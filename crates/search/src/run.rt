// A whole run: a search is opened, sent a list of calls, and closed.
ghost use Rattle.std.specs.Prelude.{◌≡◌, length, drop};
ghost use Rattle.entries.specs.Listing.{given_of};
ghost use Rattle.search.specs.Runs.{asked, turns, given_by, Law};
ghost use Rattle.search.specs.Turning.{Entered, Ran};

use crate::calls::{Answer, Call, Reply};
use crate::open::{ClosedSearch, OpenSearch};
use entries::entry::Journey;
use journeys::question::Question;
use networks::Network;

// Sends one call to a search, and makes a record of its answer. The calls are data that the law reads, so a match tells them apart.
fn answer<'a, N: Network>(search: &mut OpenSearch<N>, call: Call<'a>) -> Answer
    ensures same { (search.new.network ≡ search.old.network) × (search.new.question ≡ search.old.question) }
    ensures turn { Entered (N.Network.meaning search.old.network) search.old.question search.old.entries (asked call.entry) result search.new.entries }
{
    let mut buffer = [0; 255];
    let (arrival, count) = match call {
        Call::Next => search.next(&mut buffer)?,
        Call::Again(i) => search.again(i, &mut buffer)?,
        Call::Strike(edges) => {
            search.strike(edges)?;
            return Ok(Reply::Struck);
        }
    };
    Ok(Reply::Gave(Journey::new(arrival, &buffer[..count]).unwrap()))
}

// Sends the calls in order and records their answers, as far as there are places for them.
fn send_all<'a, N: Network>(search: &mut OpenSearch<N>, calls: &[Call<'a>], answers: &mut [Answer])
    ensures same { (search.new.network ≡ search.old.network) × (search.new.question ≡ search.old.question) }
    ensures ran { Ran (N.Network.meaning search.old.network) search.old.question search.old.entries (turns calls.now answers.new) search.new.entries }
    ensures rest { drop (length calls.now) answers.new ≡ drop (length calls.now) answers.old }
{
    // By place: of answers written through iter_mut and zip no contract tells what stands there afterwards.
    let count = calls.len().min(answers.len());
    for (k, call) in calls[..count].iter().enumerate() {
        answers[k] = answer(search, *call);
    }
}

// Opens a search, sends it the calls in order, records every answer that has a place, and closes it.
pub fn run<'a, N: Network>(
    network: N,
    question: Question,
    calls: &[Call<'a>],
    answers: &mut [Answer],
) -> ClosedSearch<N>
    ensures network { result.network ≡ network }
    ensures given { given_of result.entries ≡ given_by (turns calls.now answers.new) }
    ensures law { Law (N.Network.meaning network) question (turns calls.now answers.new) }
    ensures rest { drop (length calls.now) answers.new ≡ drop (length calls.now) answers.old }
{
    let mut search = OpenSearch::new(network, question);
    send_all(&mut search, calls, answers);
    search.close()
}
