// Reading an input to its end.
#![tactic(auto)]

ghost use Rattle.input.specs.Zeros.{Zeros};
ghost use Rattle.input.specs.Taken.{Taken, TakenFile};

use std::fs;
use std::fs::Files;
use std::io::Read;

// The most bytes that an input may have.
pub const LIMIT: usize = 65536;

// Room for an input of the limit, and for one byte more, which shows that it is too long.
pub fn buffer() -> [u8; 65537]
    ensures { Zeros 65537 result }
{
    [0; 65537]
}

// Reads until the input ends or the buffer is full, and answers how many bytes came; none where a read fails. Pieces may
// be small.
pub fn read_all<R: Read>(from: &mut R, buf: &mut [u8]) -> Option<usize>
    ensures { Taken result buf.old buf.new }
{
    let mut n: usize = 0;
    while n < buf.len() {
        let more = from.read(&mut buf[n..]).ok()?;
        if more == 0 {
            return Some(n);
        }
        n += more;
    }
    Some(n)
}

// Reads a file to its end; none where it can't be opened or read, as one whose name is no text, since a path of std is.
pub fn read_file<F: Files>(files: &F, name: &[u8], buf: &mut [u8]) -> Option<usize>
    ensures { TakenFile result buf.old buf.new }
{
    let path = str::from_utf8(name).ok()?;
    let mut file = fs::open(files, path).ok()?;
    read_all(&mut file, buf)
}
