// The calls that a run sends to a search, and their answers.
use entries::entry::Journey;
use refusals::Refusal;

#[derive(Clone, Copy)]
pub enum Call<'a> {
    Next,
    Again(usize),
    Strike(&'a [u16]),
}

// What a call that is not refused comes to.
#[derive(Clone, Copy, PartialEq, Eq)]
pub enum Reply {
    Gave(Journey),
    Struck,
}

pub type Answer = Result<Reply, Refusal>;
