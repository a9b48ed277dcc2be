// Slips at the end of a log: written and checked.
ghost use Rattle.std.specs.Prelude.{◌≡◌};
ghost use Rattle.register.specs.Books.{book_of};
ghost use Rattle.replay.specs.Endings.{end_of};
ghost use Rattle.slip.specs.Checking.{checked};
ghost use Rattle.slip.specs.Writing.{written, buffer_after};

use register::{Block, Office};
use replay::run_log;
use slip::{Checked, Written, check_slip, write_slip};

// Writes a slip about a block, from an office's view at the end of a log.
pub fn write_deed(log: &[u8], office: Office, b: Block, buf: &mut [u8]) -> Written
    ensures { (result ≡ written (book_of (end_of log.now).register) office.0 b.0 buf.old)
        × (buf.new ≡ buffer_after (book_of (end_of log.now).register) office.0 b.0 buf.old) }
{
    write_slip(run_log(log).register, office, b, buf)
}

// Checks a slip at the end of a log: the block that it proves final, or why it is refused.
pub fn check_deed(log: &[u8], slip: &[u8]) -> Checked
    ensures { result ≡ checked (book_of (end_of log.now).register) slip.now }
{
    check_slip(run_log(log).register, slip)
}
