// What size answers.
ghost use Rattle.std.specs.Prelude.{◌≡◌};
ghost use Rattle.sizing.specs.Size.{number_of_size};

// How many nodes a tree has, exact below the largest number of 64 bits, else over it.
#[derive(Clone, Copy, Debug, PartialEq, Eq)]
pub enum Size {
    Exact(u64),
    Over,
}

// A size as a number of 64 bits: the largest represents "over".
impl From<Size> for u64 {
    ghost from_gives = { λ size nodes. nodes ≡ number_of_size size };

    fn from(size: Size) -> u64 {
        match size {
            Size::Exact(nodes) => nodes,
            Size::Over => u64::MAX,
        }
    }
}
