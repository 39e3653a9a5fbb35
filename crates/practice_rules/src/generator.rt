// The generator of draws: a number of 32 bits, its step, and the draw that a step gives.
ghost use Rattle.std.specs.Prelude.{◌≡◌};
ghost use Rattle.practice_terms.specs.Draw.{draw as Draw·draw, next as Draw·next};

const MULTIPLIER: u32 = 1_664_525;

const INCREMENT: u32 = 1_013_904_223;

// The number that the generator has come to.
#[derive(Clone, Copy, Debug, PartialEq, Eq)]
pub struct Generator {
    pub x: u32,
}

impl Generator {
    // Steps to the number that follows, and answers its draw.
    pub fn draw(&mut self) -> u32
        ensures number { self.new.x ≡ Draw·next self.old.x }
        ensures draw { result ≡ Draw·draw (Draw·next self.old.x) }
    {
        self.x = self.x.wrapping_mul(MULTIPLIER).wrapping_add(INCREMENT);
        draw(self.x)
    }
}

// The draw of a number that a step has led to.
pub fn draw(x: u32) -> u32
    ensures { result ≡ Draw·draw x }
{
    x / 65536
}
