// plan FILE ORIGIN DESTINATION START LATEST [--window EDGE,FROM,UNTIL].. [--late EDGE,SECONDS]..: the first journeys in rank.
#![tactic(auto)]

mod asked;
mod day;
mod failure;
mod shown;

use asked::Asked;
use day::load;
use failure::Failure;
use journeys::question::Question;
use layers::gate::Gate;
use layers::late::Late;
use networks::Network;
use refusals::Refusal;
use search::calls::{Answer, Call, Reply};
use search::run::run;
use shown::print_journey;
use std::process::ExitCode;
use timetable::table::DayTable;

// The table under the gate hours and the late notices that were asked for.
fn layered(table: DayTable, asked: &Asked) -> Result<Late<Gate<DayTable>>, Refusal> {
    let mut gate = Gate::new(table);
    for window in asked.windows.iter().copied() {
        gate.add(window)?;
    }
    let mut late = Late::new(gate);
    for notice in asked.notices.iter().copied() {
        late.add(notice)?;
    }
    Ok(late)
}

// Prints the first sixteen journeys in rank, or as many as there are; it is refused if there is none.
fn list<N: Network + Drop>(
    rt: &HostRuntime,
    network: N,
    question: Question,
) -> Result<(), Failure> {
    let mut answers: [Answer; 16] = [Ok(Reply::Struck); 16];
    let network = run(network, question, &[Call::Next; 16], &mut answers).into_network();
    answers[0].as_ref().map_err(|refusal| *refusal)?;
    for (i, answer) in answers.iter().enumerate() {
        if let Ok(Reply::Gave(journey)) = answer {
            print_journey(rt, &network, question.start(), i + 1, journey)?;
        }
    }
    Ok(())
}

fn answer(rt: &HostRuntime) -> Result<(), Failure> {
    let asked = Asked::read(rt)?;
    let question = Question::new(asked.origin, asked.destination, asked.start, asked.latest)?;
    let network = layered(load(rt, &asked.file)?, &asked)?;
    list(rt, network, question)
}

fn main(rt: HostRuntime) -> ExitCode {
    match answer(&rt) {
        Ok(()) => ExitCode::SUCCESS,
        Err(failure) => {
            let _ = eprintln!(rt; "{failure}");
            ExitCode::FAILURE
        }
    }
}
