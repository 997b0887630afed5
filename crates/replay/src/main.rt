// The listings of stored bundles. The file `cases` has the number of cases as a word, then for each case its title and its bundle, each with
// its length in front as a word; words are little-endian. Printed are a line with the title, the bundle's listing under the old reading of
// texts, and the one under the new. Nothing else is decided here.
#![tactic(auto)]

ghost use Rattle.std.specs.Prelude.{◌≤◌, length};
ghost use Rattle.std.specs.Result.{IfOk};

use printing::bundle::Buffers;
use printing::descriptor::Descriptor;
use printing::program::INPUT;
use printing::write::write_under;
use reads::text::Reading;
use std::fs::File;
use std::io::{Read, Write};

// The descriptors that every program begins with.
const STDOUT: i32 = 1;

const STDERR: i32 = 2;

// Why no more cases are written: the file ends before, or a buffer is too short for a part; or a write failed.
#[derive(Clone, Copy)]
enum Failure {
    Cut,
    Unwritten,
}

// The next word of the file.
fn read_word(file: &mut File) -> Result<u64, Failure> {
    let mut word = [0u8; 8];
    file.read_exact(&mut word).map_err(|_| Failure::Cut)?;
    Ok(u64::from_le_bytes(word))
}

// The next title or bundle of the file, to the front of a buffer: how many bytes.
fn read_part(file: &mut File, to: &mut [u8]) -> Result<usize, Failure>
    ensures { IfOk result (λ n. n ≤ length to.new) }
{
    let n = read_word(file)?;
    if n > to.len() as u64 {
        return Err(Failure::Cut);
    }
    let k = n as usize;
    file.read_exact(&mut to[0..k]).map_err(|_| Failure::Cut)?;
    Ok(k)
}

// A case's first line.
fn write_title(to: &mut Descriptor, title: &[u8]) -> Result<(), Failure> {
    to.write_all(b"# ").map_err(|_| Failure::Unwritten)?;
    to.write_all(title).map_err(|_| Failure::Unwritten)?;
    to.write_all(b"\n").map_err(|_| Failure::Unwritten)
}

// Both listings of a bundle, first under the old reading.
fn write_listings(to: &mut Descriptor, input: &[u8], buffers: &mut Buffers) -> Result<(), Failure> {
    for reading in [Reading::Old, Reading::New] {
        let listed = write_under(to, reading, input, buffers);
        if !listed.whole {
            return Err(Failure::Unwritten);
        }
    }
    Ok(())
}

// A case after its title. File and descriptor come one by one, here and below: each part is read of the one or written to the other (`read_part`,
// `write_title`), so a struct of them would be taken apart.
fn replay_bundle(
    file: &mut File,
    to: &mut Descriptor,
    input: &mut [u8; INPUT],
    buffers: &mut Buffers,
) -> Result<(), Failure> {
    let n = read_part(file, input)?;
    write_listings(to, &input[..n], buffers)
}

// The next title, and its line.
fn replay_title(file: &mut File, to: &mut Descriptor, title: &mut [u8]) -> Result<(), Failure> {
    let n = read_part(file, title)?;
    write_title(to, &title[0..n])
}

// So many cases. The lent buffers go from case to case as they are.
fn replay_all(
    file: &mut File,
    to: &mut Descriptor,
    count: u64,
    input: &mut [u8; INPUT],
    buffers: &mut Buffers,
) -> Result<(), Failure> {
    for _ in 0..count {
        replay_title(file, to, input)?;
        replay_bundle(file, to, input, buffers)?;
    }
    Ok(())
}

// The whole file.
fn replay_file(file: &mut File, to: &mut Descriptor) -> Result<(), Failure> {
    let count = read_word(file)?;
    let mut input = [0u8; INPUT];
    let mut buffers = Buffers::new();
    replay_all(file, to, count, &mut input, &mut buffers)
}

// The cases that stand where the program runs; where they cannot be opened none is there.
fn replay(rt: &HostRuntime) -> Result<(), Failure> {
    let mut file = File::open(rt, "cases").map_err(|_| Failure::Cut)?;
    replay_file(
        &mut file,
        &mut Descriptor {
            fd: STDOUT,
            ended: false,
        },
    )
}

fn main(rt: HostRuntime) {
    match replay(&rt) {
        Ok(()) => {}
        Err(Failure::Cut) => {
            io::write_all(STDOUT, b"cases end early\n");
        }
        Err(Failure::Unwritten) => {
            io::write_all(STDERR, b"replay: standard output\n");
        }
    }
}
