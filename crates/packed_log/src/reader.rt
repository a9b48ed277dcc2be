// A reader, which keeps the lent log beside a position in it, for whoever reads a log item by item. It is thin:
// `read_opening` and `read_item` do the work.
ghost use Rattle.std.specs.Prelude.{◌≡◌};
ghost use Rattle.packed_log.specs.Items.{item_at, numbers, numbers_at};
ghost use Rattle.packed_log.specs.Openings.{opening_in};

use crate::item::{Item, read_item};
use crate::opening::{Opening, read_opening};

// A log and a bit position in it.
#[derive(Clone, Copy, PartialEq, Eq, Debug)]
pub struct Reader<'a> {
    pub log: &'a [u8],
    pub at: usize,
}

impl<'a> Reader<'a> {
    // The reader at the log's start.
    pub fn new(log: &'a [u8]) -> Reader<'a>
        ensures { (result.log ≡ log.entry) × (result.at ≡ 0) }
    {
        Reader { log, at: 0 }
    }

    // The opening of the log. It moves the position behind the last leader; a refusal, to the log's start.
    pub fn open(&mut self) -> Opening
        ensures { (result ≡ opening_in self.old.log.now)
            × (self.new.log ≡ self.old.log)
            × (self.new.at ≡ (opening_in self.old.log.now).next) }
    {
        let opening = read_opening(self.log);
        self.at = opening.next;
        opening
    }

    // The item at the position. A step moves the position behind its fields, the end to the log's end; a refusal leaves it.
    pub fn next(&mut self) -> Item
        ensures { (result ≡ (item_at self.old.log.now self.old.at).item)
            × (numbers result ≡ numbers_at self.old.log.now self.old.at)
            × (self.new.log ≡ self.old.log)
            × (self.new.at ≡ (item_at self.old.log.now self.old.at).next) }
    {
        let read = read_item(self.log, self.at);
        self.at = read.next;
        read.item
    }
}
