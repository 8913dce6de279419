#![tactic(auto)]

// Runs a script: records of 12 bytes from standard input, a line for each on standard output, and the totals at the end. What the bytes of a record do,
// and the bytes of each line, are functions of the crate `text`, with contracts. Here bytes are read and written: a line in one write.
ghost use Rattle.std.specs.Prelude.{◌≤◌, length};

use std::io;
use std::io::{Read, Write};

// Reads until the buffer is full, the input ends or a read fails. Answers the bytes that came. (`read_exact` does not say how many came before the
// input's end, and reads again after an interruption.)
fn read_full<'b, R: Read>(input: &mut R, bytes: &'b mut [u8; 12]) -> &'b [u8]
    ensures { length result.now ≤ 12 }
{
    let mut came = 0;
    for _ in 0..12 {
        if came >= 12 {
            break;
        }
        match input.read(&mut bytes[came..]) {
            Ok(0) | Err(_) => break,
            Ok(n) => came += n,
        }
    }
    &bytes[..came]
}

// A script as it runs: where its records come from, where its lines go, its image and its L.
#[derive(Drop)]
struct Script<'a, R: Read + Drop, W: Write + Drop> {
    input: R,
    output: W,
    image: &'a mut [u32],
    logical: u32,
}

impl<'a, R: Read + Drop, W: Write + Drop> Script<'a, R, W> {
    // Reads a record, carries it out and prints its line. Answers whether more may follow: not after the input's end or a short record. A write that
    // fails is the error that main returns.
    fn step(&mut self) -> io::Result<bool> {
        let mut bytes = [0u8; 12];
        let mut out = [0u8; text::LONGEST_LINE];
        let came = read_full(&mut self.input, &mut bytes);
        let count = text::reply(self.image, &mut self.logical, came, &mut out);
        self.output.write_all(&out[..count])?;
        Ok(came.len() == 12)
    }

    // A proved loop has to end, and nothing says that the input does. So the loop counts its turns, up to a number that no run uses up.
    fn run(&mut self) -> io::Result<()> {
        for _ in 0..u64::MAX {
            if !self.step()? {
                break;
            }
        }
        Ok(())
    }

    fn print_totals(&mut self) -> io::Result<()> {
        let mut out = [0u8; text::LONGEST_LINE];
        let logical = self.logical;
        let count = text::last(self.image, logical, &mut out);
        self.output.write_all(&out[..count])
    }
}

fn main(rt: HostRuntime) -> io::Result<()> {
    let mut image = [0u32; 16384];
    let logical = records::start(&mut image);
    let mut script = Script {
        input: rt.stdin(),
        output: io::writer(&rt),
        image: &mut image,
        logical,
    };
    script.run()?;
    script.print_totals()
}
