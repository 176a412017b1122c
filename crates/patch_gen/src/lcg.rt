//! The draws of a linear congruence modulo 2 to the 64, with the constants of Knuth's MMIX.

ghost use Rattle.std.specs.Prelude.{◌≡◌, ◌/◌, ◌^◌};
ghost use Rattle.patch_gen.specs.Lcg.{next_state};

#[derive(Drop)]
pub struct Lcg {
    pub state: u64,
}

impl Lcg {
    /// The upper 31 bits of the next state.
    pub fn next_draw(&mut self) -> u32
        ensures state { self.new.state ≡ next_state self.old.state }
        ensures drawn { result ≡ self.new.state / 2 ^ 33 }
    {
        let product = self.state.wrapping_mul(6364136223846793005);
        self.state = product.wrapping_add(1442695040888963407);
        (self.state >> 33) as u32
    }
}
