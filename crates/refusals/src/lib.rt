// What an opening, a step, a packed log, its writer and a slip are refused with. Each refusal has one number, under which it is known outside.
#![tactic(auto)]

ghost use Rattle.std.specs.Prelude.{◌≡◌};
ghost use Rattle.refusals.specs.Numbers.{number_of, outcome};

// A refusal. Those of an opening come first, then those of a step, of a packed log, of a finalise step that would shorten a chain, and of a slip.
#[derive(Clone, Copy, PartialEq, Eq, Debug)]
pub enum Refusal {
    Count = 1,
    Schedule,
    StrayLeader,
    Third,
    UnfitRegister,
    NoOffice,
    NoBlock,
    NoMessage,
    Wide,
    Barred,
    TrustedSender,
    Acted,
    NotLeader,
    LeaderVotes,
    NotInHand,
    Kind,
    OffEpoch,
    Entered,
    NotLongest,
    Epochs,
    NotFinal,
    Forged,
    NotSent,
    Spent,
    BlocksFull,
    MessagesFull,
    Cut,
    NoSuchStep,
    Ending,
    LongLog,
    ShortBuffer,
    Behind,
    SlipForm,
    UnsignedMark,
}

impl Refusal {
    // The number of the refusal.
    pub fn number(self) -> u8
        ensures { result ≡ number_of self }
    {
        self as u8
    }
}

// The number of the refusal, 0 where there is none.
pub fn number_of(outcome_: Result<(), Refusal>) -> u8
    ensures { result ≡ outcome outcome_ }
{
    match outcome_ {
        Ok(()) => 0,
        Err(refusal) => refusal.number(),
    }
}
