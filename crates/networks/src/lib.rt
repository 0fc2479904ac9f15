// A network is known by three questions; every kind of network answers them from its meaning and keeps the laws.
#![tactic(auto)]

ghost use Rattle.std.specs.Prelude.{◌≡◌};
ghost use Rattle.networks.specs.Networks.{Meaning, Lawful};

// The last instant, in seconds after the midnight that begins the service day.
pub const DAY_END: u32 = 172_800;

pub trait Network {
    ghost meaning: { Self → Meaning };

    // How many edges there are; they are numbered from 0.
    fn count(&self) -> u16
        ensures { result ≡ (meaning self.now).count };

    // The stop that an edge leaves and the stop that it reaches.
    fn ends(&self, edge: u16) -> Option<(u8, u8)>
        ensures { result ≡ (meaning self.now).ends edge };

    // When somebody who stands at the first stop of an edge at an instant reaches its second.
    fn lookup(&self, edge: u16, instant: u32) -> Option<u32>
        ensures { result ≡ (meaning self.now).lookup edge instant };

    ghost lawful: { (n : Self) → Lawful (meaning n) };
}
