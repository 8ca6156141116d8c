// Runs the worked examples of the file stdin, which says how they are written, over the exported calls. It prints a line for each: its
// number, its name and ok, or FAILED with the lines that did not go as written and what was got.
//
// The image has 64 bytes, one too many, and how many of them are lent to a call.
#![tactic(auto)]

use notation::Part;
use std::io;
use std::io::{BufWriter, Read, Write};

const IMAGE: usize = 66;

// Makes the call on the bytes that are lent of the image; image, line and word are kept apart as in `script`, and the count lent is what an example writes.
// The answer is its number and then its output, with EEh where nothing is written.
fn make(image: &mut [u8], line: &[u8], word: u8) -> [u8; 66] {
    let lent = notation::lent(image);
    let end = notation::answer_end(line);
    let mut answer = [0xEEu8; 66];
    let result = script::call(&mut image[..lent], &mut answer[1..end], word, line);
    notation::numbered(answer, script::number(result))
}

// The examples as they run: where they print, the image, and whether an example is open and all went as written, a flag that goes with no value.
#[derive(Drop)]
struct Examples<W> {
    out: W,
    image: [u8; 66],
    passing: bool,
}

impl<W: Write> Examples<W> {
    // The open example ends.
    fn close(&mut self) -> io::Result<()> {
        if self.passing {
            self.out.write_all(b" ok\n")?;
        }
        Ok(())
    }

    // A line that did not go as written prints, and its example fails.
    fn fail(&mut self, line: &[u8]) -> io::Result<()> {
        self.passing = false;
        self.out.write_all(b" FAILED\n  ")?;
        self.out.write_all(line)?;
        self.out.write_all(b"\n")
    }

    // What a call gave prints in hexadecimal, behind a mark.
    fn print_got(&mut self, mark: &[u8], got: [u8; 66]) -> io::Result<()> {
        self.out.write_all(mark)?;
        for byte in &got {
            write!(self.out, "{byte:02x}")?;
        }
        self.out.write_all(b"\n")
    }

    // The title prints. 64 bytes are lent from here on, and power-up writes each of them.
    fn open(&mut self, line: &[u8]) -> io::Result<()> {
        self.close()?;
        self.out.write_all(line)?;
        self.image = [64; 66];
        make(&mut self.image, b"power-up", b'p');
        self.passing = true;
        Ok(())
    }

    // Makes the call of a line. Its answer and the image, if one of them is not as written, print behind the marks that they are written behind.
    fn call(&mut self, line: &[u8], word: u8) -> io::Result<()> {
        let before = self.image;
        let answer = make(&mut self.image, line, word);
        let after = self.image;
        let output = Part {
            line,
            from: b'>',
            to: b'|',
        };
        let changes = Part {
            line,
            from: b'|',
            to: b'\n',
        };
        if output.is_written([0xEE; 66], answer) && changes.is_written(before, after) {
            return Ok(());
        }
        self.fail(line)?;
        self.print_got(b"  got > ", answer)?;
        self.print_got(b"  got | ", after)
    }

    // Changes the image as the line says.
    fn given(&mut self, line: &[u8]) -> io::Result<()> {
        let changes = Part {
            line,
            from: b' ',
            to: b'\n',
        };
        match changes.fill(&mut self.image) {
            Some(end) if end <= IMAGE => Ok(()),
            _ => self.fail(line),
        }
    }

    // Runs one line.
    fn run_line(&mut self, line: &[u8]) -> io::Result<()> {
        match line.first() {
            None | Some(b'#') => Ok(()),
            Some(b'0'..=b'9') => self.open(line),
            Some(b'g') => self.given(line),
            Some(word) => self.call(line, *word),
        }
    }

    // Runs the lines one after the other.
    fn run(&mut self, script: &[u8]) -> io::Result<()> {
        for line in script.split(|b| *b == b'\n') {
            self.run_line(line)?;
        }
        self.close()
    }
}

fn main(rt: HostRuntime) -> io::Result<()> {
    let mut script = Vec::new(rt.alloc());
    rt.reader().read_to_end(&mut script)?;
    let mut examples = Examples {
        out: BufWriter::new(rt.alloc(), io::writer(&rt))?,
        image: [0; 66],
        passing: false,
    };
    examples.run(&script)?;
    examples.out.flush()
}
