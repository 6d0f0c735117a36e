// House rules, 'Refusals': the case in which a call refuses, and what a refused call hands back.
#![tactic(auto)]

ghost use Rattle.std.specs.Prelude.{◌≡◌};
ghost use Rattle.refusals.specs.Numbers.{number};

// What is wrong: the cases in the order of their numbers, 1 to 6. Where several apply, a call names the first.
#[derive(Clone, Copy, PartialEq, Eq, Debug)]
pub enum Refusal {
    // The samples are not 160; for the A-law calls: the octets are not 160.
    Samples,
    // The codewords are not 76.
    Codewords,
    // The state is unsound.
    State,
    // The bytes are not 33.
    Bytes,
    // A codeword does not fit its field.
    Field,
    // A spare bit is set.
    Spare,
}

// The number of a refusal, as C gets it. 0 is no refusal.
impl From<Refusal> for u16 {
    ghost from_gives = { λ r n. n ≡ number r };

    #[tactic(auto, unfolding(crate::specs::Numbers::number))]
    fn from(r: Refusal) -> u16 {
        match r {
            Refusal::Samples => 1,
            Refusal::Codewords => 2,
            Refusal::State => 3,
            Refusal::Bytes => 4,
            Refusal::Field => 5,
            Refusal::Spare => 6,
        }
    }
}

// A refused call: the state as it was passed in, and the case. The state stands first, where it stands in an answer
// that is not refused, so that it is copied in one piece.
#[derive(Clone, Copy)]
pub struct Refused<S> {
    pub state: S,
    pub refusal: Refusal,
}

impl Refusal {
    // This refusal, which hands back the state.
    pub fn with<S>(self, state: S) -> Refused<S>
        ensures { result ≡ record { refusal = self; state = state } }
    {
        Refused {
            state,
            refusal: self,
        }
    }
}
