// Numbers that look random and are the same in every run.
ghost use Rattle.std.specs.Prelude.{◌<◌};

// The multiplicative generator of Park and Miller: its states are 1 to 2,147,483,646.
const MODULUS: u64 = 2147483647;

#[derive(Clone, Copy)]
pub(crate) struct Chance {
    state: u64,
}

impl Chance {
    pub(crate) fn new(seed: u64) -> Chance {
        Chance { state: seed }
    }

    // A number below n, by the state, which moves on.
    pub(crate) fn draw(&mut self, n: usize) -> usize
        requires { 0 < n }
        ensures { result < n }
    {
        self.state = self.state % MODULUS * 48271 % MODULUS;
        (self.state / 8) as usize % n
    }
}
