// What C is told of a drawing.
ghost use Rattle.std.specs.Prelude.{◌≡◌};
ghost use Rattle.refusals.specs.Refusals.{refusal_number};

use drawing::Receipt;
use pricing::Total;
use refusals::Refusal;

// The receipt of a drawing after `refusal` 0, or the number of the refusal and zeros. C knows no enum, so both stand in one struct.
#[repr(C)]
#[derive(Clone, Copy, PartialEq, Eq, Debug, Default)]
pub struct Drawn {
    pub refusal: u16,
    pub bins: u16,
    pub tally: u64,
    pub priced: u64,
    pub compared: u64,
}

// Each `From` is written out, since its clause says every field.
impl From<Receipt<Total>> for Drawn {
    ghost from_gives = { λ receipt drawn. drawn ≡ record {
      refusal = 0;
      bins = receipt.bins;
      tally = receipt.tally.sum;
      priced = receipt.priced;
      compared = receipt.compared;
    } };

    fn from(receipt: Receipt<Total>) -> Drawn {
        Drawn {
            refusal: 0,
            bins: receipt.bins,
            tally: receipt.tally.sum,
            priced: receipt.priced,
            compared: receipt.compared,
        }
    }
}

impl From<Refusal> for Drawn {
    ghost from_gives = { λ refusal drawn. drawn ≡ record {
      refusal = refusal_number refusal;
      bins = 0;
      tally = 0;
      priced = 0;
      compared = 0;
    } };

    fn from(refusal: Refusal) -> Drawn {
        Drawn {
            refusal: u16::from(refusal.number()),
            ..Drawn::default()
        }
    }
}
