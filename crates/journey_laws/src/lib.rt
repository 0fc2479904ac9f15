// Theorems on journeys, each the promise of a function; they hold over every network.
#![tactic(auto)]

ghost use Rattle.journey_laws.specs.Theorems.{RankIsTotal, NoneBeginsAnother, OneArrival, OneFirst, AtMost255Edges, LeavesOnce, NextIsLeast};

// Rank is a strict total order on the simple journeys of a question.
pub fn rank_is_total()
    ensures { RankIsTotal }
{
    rank()
}

// No simple journey begins another one.
pub fn none_begins_another()
    ensures { NoneBeginsAnother }
{
    beginnings()
}

// A journey has one arrival.
pub fn one_arrival()
    ensures { OneArrival }
{
    arrivals()
}

// Of the unlisted journeys at most one is the first in rank.
pub fn one_first()
    ensures { OneFirst }
{
    firsts()
}

// A simple journey has at most 255 edges.
pub fn at_most_255_edges()
    ensures { AtMost255Edges }
{
    lengths()
}

// Every unlisted journey leaves the entries of a search at exactly one place.
pub fn leaves_once()
    ensures { LeavesOnce }
{
    leavings()
}

// What none ranks before which leaves the entries at a place of theirs is the first in rank of the unlisted journeys.
pub fn next_is_least()
    ensures { NextIsLeast }
{
    branches()
}

// The proofs of the theorems stand with these, one for each, so that in the body of a theorem's function another can be put, and is refused.
fn rank()
    ensures { RankIsTotal }
{}

fn beginnings()
    ensures { NoneBeginsAnother }
{}

fn arrivals()
    ensures { OneArrival }
{}

fn firsts()
    ensures { OneFirst }
{}

fn lengths()
    ensures { AtMost255Edges }
{}

fn leavings()
    ensures { LeavesOnce }
{}

fn branches()
    ensures { NextIsLeast }
{}
