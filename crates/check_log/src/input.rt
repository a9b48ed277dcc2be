// What the program is given: its argument, and the bytes of a log.
ghost use Rattle.std.specs.Prelude.{◌≡◌, true, ◌∷◌, [], ◌≤◌, length, IfOk};

use std::io::{self, Read};

// Whether an argument asks for the line of use: it is `--help`.
pub fn asks_for_usage(argument: &[u8]) -> bool
    ensures { (result ≡ true → argument.now ≡ 45 ∷ 45 ∷ 104 ∷ 101 ∷ 108 ∷ 112 ∷ [])
        × (argument.now ≡ 45 ∷ 45 ∷ 104 ∷ 101 ∷ 108 ∷ 112 ∷ [] → result ≡ true) }
{
    argument == b"--help".as_slice()
}

// Reads an open file to its end, or as far as there is room, and gives how many bytes it gave. A turn goes on by as many as one read
// gave, which no `for` does.
pub fn read_input(file: &mut impl Read, log: &mut [u8]) -> io::Result<usize>
    ensures { IfOk result (λ size. size ≤ length log.new) × (length log.new ≡ length log.old) }
{
    let mut size = 0;
    while size < log.len() {
        let more = file.read(&mut log[size..])?;
        if more == 0 {
            break;
        }
        size += more;
    }
    Ok(size)
}
