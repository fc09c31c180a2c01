// What a reader gives, into a buffer.
ghost use Rattle.std.specs.Prelude.{IfOk};
ghost use Rattle.mapping.specs.Streams.{Fills};

use std::io;
use std::io::Read;

// Reads until the buffer is full or the input has ended; gives how many bytes it put at the buffer's start. A read that fails is
// handed on: some of the buffer may be written. The position is counted by hand: `read_exact` refuses an input that ends early, and
// `read_to_end` wants a Vec.
pub fn read_full<R: Read>(reader: &mut R, buf: &mut [u8]) -> io::Result<usize>
    ensures { IfOk result (Fills (R.remaining reader.old) (R.remaining reader.new) buf.new) }
{
    let mut done = 0;
    while done < buf.len() {
        match reader.read(&mut buf[done..])? {
            0 => break,
            n => done += n,
        }
    }
    Ok(done)
}
