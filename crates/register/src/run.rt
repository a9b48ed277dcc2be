// Running steps: a batch, one, or one of a kind.
ghost use Rattle.std.specs.Prelude.{◌≡◌, min, take};
ghost use Rattle.register.specs.Limits.{batch};
ghost use Rattle.register.specs.Books.{book_of};
ghost use Rattle.register.specs.Steps.{step_rule};
ghost use Rattle.register.specs.Runs.{ran};
ghost use Rattle.register.specs.Written.{InTables, written};

use crate::actor::{Actor, actor_of, place_of, settled_after, settled_base};
use crate::change::Change;
pub use crate::limits::BATCH;
use crate::sorts::{Block, Epoch, Kind, Message, Office};
use crate::step::Step;
use crate::steps::judge::judge;
use crate::table::{Answers, Ran, Register, Stepped};

// Steps that are run in one call.
pub type Batch = [Step; BATCH];

impl Register {
    // Writes a change, without a branch. Each of its entries has a place in its table.
    fn write(&mut self, change: Change)
        requires { InTables change }
        ensures { book_of self.new ≡ written (book_of self.old) change }
    {
        self.epoch = change.clock.epoch;
        self.acted = change.clock.acted;
        let block = change.block;
        self.blocks.last = block.last;
        self.blocks.parents[block.at] = block.header.parent;
        self.blocks.epochs[block.at] = block.header.epoch;
        self.blocks.payloads[block.at] = block.header.payload;
        let message = change.message;
        self.messages.count = message.count;
        self.messages.kinds[message.at] = message.kind;
        self.messages.signers[message.at] = message.signer;
        self.messages.about[message.at] = message.about;
        self.messages.places[message.at] = message.place;
        self.messages.places[change.place.at] = change.place.place;
        self.offices[change.office.at] = change.office.state;
    }

    // Runs the first steps of a batch. The register is tested once, since no step alters its fitness. There is no heap, so the steps are an array with a
    // count. `Ran` and `Stepped` are each made at one place, so that no `From` stands for it.
    // Two columns are locals, since the checker takes no array straight from a field into a literal.
    pub fn run(self, steps: Batch, count: usize) -> Ran
        ensures { result ≡ ran self (take (min count batch) steps) }
    {
        let mut register = self;
        let answers = register.run_on(steps, count);
        let refusals = answers.refusals;
        let values = answers.values;
        Ran {
            register,
            refusals,
            values,
        }
    }

    // The same in place, for whoever has little room on the stack: the register is changed, and the answers are given.
    pub fn run_on(&mut self, steps: Batch, count: usize) -> Answers
        ensures { record { register = self.new; refusals = result.refusals; values = result.values }
            ≡ ran self.old (take (min count batch) steps) }
    {
        self.know_sizes();
        let fits = self.is_fit();
        let mut refusals = [0u8; BATCH];
        let mut values = [0u16; BATCH];
        let mut settled = 0;
        for i in 0..count.min(BATCH) {
            let step = steps[i];
            let office = actor_of(step);
            let at = place_of(office);
            let base = settled_base(self.offices[at], settled, office);
            let change = judge(fits, self, Actor { at, base }, step);
            self.write(change);
            settled = settled_after(settled, office, change.answer.refusal);
            refusals[i] = change.answer.refusal;
            values[i] = change.answer.value;
        }
        Answers { refusals, values }
    }
}

impl Register {
    // Runs one step.
    pub fn step(self, step: Step) -> Stepped
        ensures { result ≡ step_rule self step }
    {
        let ran = self.run([step; BATCH], 1);
        Stepped {
            register: ran.register,
            refusal: ran.refusals[0],
            value: ran.values[0],
        }
    }
    // The leader names a block of the current epoch on that parent and sends its proposal.
    pub fn propose(self, office: Office, parent: Block, payload: u16) -> Stepped
        ensures { result ≡ step_rule self (Step.Propose office parent payload) }
    {
        self.step(Step::Propose(office, parent, payload))
    }

    // An office votes for the block of a proposal in its inbox.
    pub fn vote(self, office: Office, message: Message) -> Stepped
        ensures { result ≡ step_rule self (Step.Vote office message) }
    {
        self.step(Step::Vote(office, message))
    }

    // An office takes a vote from its inbox into its view.
    pub fn register(self, office: Office, message: Message) -> Stepped
        ensures { result ≡ step_rule self (Step.Register office message) }
    {
        self.step(Step::Register(office, message))
    }

    // An office makes the parent of that block final.
    pub fn finalise(self, office: Office, newest: Block) -> Stepped
        ensures { result ≡ step_rule self (Step.Finalise office newest) }
    {
        self.step(Step::Finalise(office, newest))
    }

    // A message comes into an office's inbox.
    pub fn deliver(self, message: Message, office: Office) -> Stepped
        ensures { result ≡ step_rule self (Step.Deliver message office) }
    {
        self.step(Step::Deliver(message, office))
    }

    // An untrusted office sends a message of that kind, signer and block.
    pub fn bad_send(self, sender: Office, kind: Kind, signer: Office, about: Block) -> Stepped
        ensures { result ≡ step_rule self (Step.BadSend sender kind signer about) }
    {
        self.step(Step::BadSend(sender, kind, signer, about))
    }

    // A block is named; nothing is sent.
    pub fn draft(self, parent: Block, epoch: Epoch, payload: u16) -> Stepped
        ensures { result ≡ step_rule self (Step.Draft parent epoch payload) }
    {
        self.step(Step::Draft(parent, epoch, payload))
    }

    // The next epoch begins.
    pub fn advance(self) -> Stepped
        ensures { result ≡ step_rule self Step.Advance }
    {
        self.step(Step::Advance)
    }
}
