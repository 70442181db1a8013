// The listing program: reads the data rows in one byte, the data columns in the next and then the map from standard input, and
// prints the repairs, the cycle of a fatal loss, or a refusal. 259 bytes settle every answer: no map has more than 256.
#![tactic(auto)]

ghost use Rattle.std.specs.Prelude.{◌≤◌, length, take};
ghost use Rattle.std.specs.Io.KnownBytes.{Consumes};

use std::io;
use std::io::Read;

// Reads until the buffer is full or the input has ended, and says how many bytes came. Input that cannot be read counts as ended.
fn read_full<R: Read>(input: &mut R, buffer: &mut [u8]) -> usize
    ensures within { result ≤ length buffer.new }
    ensures bytes { Consumes (R.remaining input.old) (R.remaining input.new) (take result buffer.new) }
{
    let mut done = 0;
    // A loop of reads, since `read_exact` does not say which bytes came where the input ends before.
    while done < buffer.len() {
        match input.read(&mut buffer[done..]) {
            Ok(0) | Err(_) => break,
            Ok(came) => done += came,
        }
    }
    done
}

fn main(rt: HostRuntime) -> io::Result<()> {
    let mut buffer = [0u8; 259];
    let n = read_full(&mut rt.stdin(), &mut buffer);
    let text = listing::listing_of(&buffer[..n]);
    rt.write_all(&text.bytes[..text.len])
}
