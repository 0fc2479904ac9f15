// A layer over any network, again a network: the network below it under a rule.
ghost use Rattle.std.specs.Prelude.{◌≡◌};
ghost use Rattle.networks.specs.Networks.{Meaning, Lawful};
ghost use Rattle.layers.specs.Piles.{layer_meaning};

use networks::Network;

// A kind of layer: what it makes of a network. Whatever keeps this, over whatever network, is a network again.
pub trait Rule: Default + Drop {
    // What a network means under the rule.
    ghost over: { Self → Meaning → Meaning };

    // When somebody who stands at the first stop of an edge at an instant reaches its second, under the rule.
    fn lookup<N: Network>(&self, below: &N, edge: u16, instant: u32) -> Option<u32>
        ensures { result ≡ (over self.now (N.Network.meaning below.now)).lookup edge instant };

    // Only lookups change.
    ghost same_count: { (r : Self) (m : Meaning) → (over r m).count ≡ m.count };

    ghost same_ends: { (r : Self) (m : Meaning) → (over r m).ends ≡ m.ends };

    // The laws of a network stay.
    ghost lawful: { (r : Self) (m : Meaning) → Lawful m → Lawful (over r m) };

    // A rule that is new changes nothing.
    ghost unchanged: { (r : Self) (m : Meaning) → Self.is_default r → over r m ≡ m };
}

// A network under a rule.
#[derive(Drop)]
pub struct Layer<N, R> {
    below: N,
    pub(crate) rule: R,
}

impl<N: Network, R: Rule> Layer<N, R> {
    // A layer over a network, which changes nothing yet.
    pub fn new(below: N) -> Layer<N, R>
        ensures answer { (result.below ≡ below) × R.Default.is_default result.rule }
        ensures law { layer_meaning R.Rule.over N.Network.meaning result ≡ N.Network.meaning below }
    {
        Layer {
            below,
            rule: R::default(),
        }
    }

    // Gives the network back.
    pub fn into_below(self) -> N
        ensures answer { result ≡ self.below }
    {
        let Layer { below, .. } = self;
        below
    }
}

impl<N: Network, R: Rule> Network for Layer<N, R> {
    ghost meaning = { λ s. layer_meaning R.Rule.over N.Network.meaning s };

    ghost lawful = { λ s. R.Rule.lawful s.rule _ (N.Network.lawful s.below) };

    fn count(&self) -> u16 {
        self.below.count()
    }

    fn ends(&self, edge: u16) -> Option<(u8, u8)> {
        self.below.ends(edge)
    }

    fn lookup(&self, edge: u16, instant: u32) -> Option<u32> {
        self.rule.lookup(&self.below, edge, instant)
    }
}
