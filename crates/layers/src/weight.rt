// The weight of a rule.
ghost use Rattle.std.specs.Prelude.{◌≤◌};

use windows::Refusal;

// A weight, 1 to 100.
#[derive(Clone, Copy, Debug, PartialEq, Eq)]
pub struct Weight {
    value: u8,
    ghost some: { 1 ≤ value },
    ghost most: { value ≤ 100 },
}

impl TryFrom<usize> for Weight {
    type Error = Refusal;

    ghost use Rattle.layers.specs.Weights.{Weighed};

    ghost try_from_gives = { Weighed };

    fn try_from(value: usize) -> Result<Weight, Refusal> {
        match value {
            1..=100 => Ok(Weight { value: value as u8 }),
            _ => Err(Refusal::Limit),
        }
    }
}

impl From<Weight> for u8 {
    ghost use Rattle.std.specs.Prelude.{◌≡◌};

    ghost from_gives = { λ weight number. number ≡ weight.value };

    fn from(weight: Weight) -> u8 {
        weight.value
    }
}

impl Weight {
    ghost use Rattle.std.specs.Prelude.{◌≡◌};
    ghost use Rattle.layers.specs.Weights.{Weighed};

    // The weight of a number, if that is 1 to 100.
    pub fn new(value: usize) -> Result<Weight, Refusal>
        ensures { Weighed value result }
    {
        Weight::try_from(value)
    }

    // The number of the weight.
    pub fn get(self) -> u8
        ensures { result ≡ self.value }
    {
        u8::from(self)
    }
}
