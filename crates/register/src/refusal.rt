// The numbers of refusal of an opening and of a step; 0 stands for none. Makers know them by these names, a rule of the project; the enum is `Refusal`.
ghost use Rattle.std.specs.Prelude.{◌≡◌, [], ◌∷◌};

pub use refusals::Refusal;

pub const COUNT: u8 = Refusal::Count as u8;

pub const SCHEDULE: u8 = Refusal::Schedule as u8;

pub const STRAY_LEADER: u8 = Refusal::StrayLeader as u8;

pub const THIRD: u8 = Refusal::Third as u8;

pub const UNFIT_REGISTER: u8 = Refusal::UnfitRegister as u8;

pub const NO_OFFICE: u8 = Refusal::NoOffice as u8;

pub const NO_BLOCK: u8 = Refusal::NoBlock as u8;

pub const NO_MESSAGE: u8 = Refusal::NoMessage as u8;

pub const WIDE: u8 = Refusal::Wide as u8;

pub const BARRED: u8 = Refusal::Barred as u8;

pub const TRUSTED_SENDER: u8 = Refusal::TrustedSender as u8;

pub const ACTED: u8 = Refusal::Acted as u8;

pub const NOT_LEADER: u8 = Refusal::NotLeader as u8;

pub const LEADER_VOTES: u8 = Refusal::LeaderVotes as u8;

pub const NOT_IN_HAND: u8 = Refusal::NotInHand as u8;

pub const KIND: u8 = Refusal::Kind as u8;

pub const OFF_EPOCH: u8 = Refusal::OffEpoch as u8;

pub const ENTERED: u8 = Refusal::Entered as u8;

pub const NOT_LONGEST: u8 = Refusal::NotLongest as u8;

pub const EPOCHS: u8 = Refusal::Epochs as u8;

pub const NOT_FINAL: u8 = Refusal::NotFinal as u8;

pub const FORGED: u8 = Refusal::Forged as u8;

pub const NOT_SENT: u8 = Refusal::NotSent as u8;

pub const SPENT: u8 = Refusal::Spent as u8;

pub const BLOCKS_FULL: u8 = Refusal::BlocksFull as u8;

pub const MESSAGES_FULL: u8 = Refusal::MessagesFull as u8;

pub const BEHIND: u8 = Refusal::Behind as u8;

// All of them, in the order of their table.
pub fn numbers() -> [u8; 27]
    ensures { result ≡
        1 ∷ 2 ∷ 3 ∷ 4 ∷ 5 ∷ 6 ∷ 7 ∷ 8 ∷ 9 ∷ 10 ∷ 11 ∷ 12 ∷ 13 ∷
        14 ∷ 15 ∷ 16 ∷ 17 ∷ 18 ∷ 19 ∷ 20 ∷ 21 ∷ 22 ∷ 23 ∷ 24 ∷ 25 ∷ 26 ∷
        32 ∷ [] }
{
    [
        COUNT,
        SCHEDULE,
        STRAY_LEADER,
        THIRD,
        UNFIT_REGISTER,
        NO_OFFICE,
        NO_BLOCK,
        NO_MESSAGE,
        WIDE,
        BARRED,
        TRUSTED_SENDER,
        ACTED,
        NOT_LEADER,
        LEADER_VOTES,
        NOT_IN_HAND,
        KIND,
        OFF_EPOCH,
        ENTERED,
        NOT_LONGEST,
        EPOCHS,
        NOT_FINAL,
        FORGED,
        NOT_SENT,
        SPENT,
        BLOCKS_FULL,
        MESSAGES_FULL,
        BEHIND,
    ]
}
