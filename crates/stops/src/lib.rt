// A set of stops, and a guard that puts back what a set held.
#![tactic(auto)]

ghost use Rattle.std.specs.Prelude.{◌≡◌, ℕ, true, false, ◌≢◌};
ghost use Rattle.stops.specs.Sets.{member};

// Stop s is bit s % 64 of word s / 64.
#[derive(Clone, Copy, Debug, PartialEq, Eq)]
pub struct StopSet {
    words: [u64; 4],
}

impl StopSet {
    #[tactic(auto, using(crate::proofs::Bits::none))]
    pub fn empty() -> StopSet
        ensures { (s : ℕ) → member result s ≡ false }
    {
        StopSet { words: [0; 4] }
    }

    #[tactic(auto, using(crate::proofs::Bits::tested))]
    pub fn contains(&self, stop: u8) -> bool
        ensures { result ≡ member self.now stop }
    {
        (self.words[(stop / 64) as usize] >> (stop % 64)) & 1 == 1
    }

    #[tactic(auto, using(crate::proofs::Bits::set_here, crate::proofs::Bits::set_elsewhere))]
    pub fn insert(&mut self, stop: u8)
        ensures after { member self.new stop ≡ true }
        ensures rest { (s : ℕ) → s ≢ stop → member self.new s ≡ member self.old s }
    {
        self.words[(stop / 64) as usize] |= 1 << (stop % 64);
    }
}

// Lends a set; at its end the set holds again what was saved. A detour puts the set back by such a guard: that is part of its definition.
pub struct Restore<'a> {
    pub set: &'a mut StopSet,
    pub saved: StopSet,
}

impl Drop for Restore<'_> {
    fn drop(self)
        ensures { self.exit.0.now ≡ self.entry.saved }
    {
        *self.set = self.saved;
        let Restore { set: _, saved: _ } = self;
    }
}
