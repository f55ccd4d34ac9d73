// A run of calls on one histogram, as a list: what is asked, and what is answered.
ghost use Rattle.std.specs.Prelude.{◌≡◌};
ghost use Rattle.counting.specs.Runs.{Performed, Replayed};

use crate::Histogram;
use refusals::Refusal;

// A call as a value, so that a list of calls can be spoken of.
#[derive(Clone, Copy)]
pub enum Call<'a> {
    Open(u16),
    Count(&'a [u16]),
    Withdraw(&'a [u16]),
    Clear,
}

// The new total where the call counts or withdraws, nothing where it opens or clears; or why it is refused.
pub type Answer = Result<Option<u32>, Refusal>;

impl Histogram {
    // Makes the call on the histogram.
    pub fn perform(&mut self, call: Call<'_>) -> Answer
        ensures { Performed self.old call.entry result self.new }
    {
        match call {
            Call::Open(levels) => self.open(levels).map(|()| None),
            Call::Count(row) => self.count(row).map(Some),
            Call::Withdraw(row) => self.withdraw(row).map(Some),
            Call::Clear => {
                self.clear();
                Ok(None)
            }
        }
    }
}

// Makes the calls one after the other on a fresh histogram in `place`, and writes each answer;
// as many calls as the shorter of the two lists has.
pub fn replay(calls: &[Call<'_>], answers: &mut [Answer], place: &mut Histogram)
    ensures { Replayed calls.now answers.old answers.new place.new }
{
    *place = Histogram::fresh();
    let made = calls.len().min(answers.len());
    // By index: a proof knows nothing of what was written through `iter_mut`.
    for (i, call) in calls[..made].iter().enumerate() {
        answers[i] = place.perform(*call);
    }
}
