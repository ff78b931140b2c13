#![tactic(auto)]
// Draws scripts from files, and compares what is drawn with stored output, byte by byte.
ghost use Rattle.std.specs.Prelude.{◌≡◌, ◌≤◌, ◌<◌, ◌+◌, IfOk, length};
ghost use Rattle.vectors.specs.Counts.{IsPrefixLen, alike as Counts·alike};

use lines::{Piece, Pieces};
use script::Step;
use std::fs::File;
use std::io::Read;
use std::rt::Files;
use std::{fmt, io};

// The place of the first byte at which the output is not the stored one, or the end of the shorter of the two.
#[derive(Clone, Copy)]
struct Differs {
    at: usize,
}

impl fmt::Display for Differs {
    fn fmt<W: fmt::Write>(&self, f: &mut fmt::Formatter<W>) -> fmt::Result {
        let at = self.at;
        write!(f, "differs at byte {at}")
    }
}

// The file `names` has the scripts' names, one to a line.
fn main(rt: HostRuntime) -> io::Result<()> {
    let mut buffer = [0u8; 4096];
    let names = read_file(&rt, b"names", &mut buffer);
    run(&rt, names)
}

fn run(rt: &(impl Files + Print + Eprint), names: &[u8]) -> io::Result<()> {
    let mut rest = names;
    let mut scripts: u64 = 0;
    let mut same: u64 = 0;
    while !rest.is_empty() {
        let (name, others) = split_line(rest);
        same += u64::from(run_script(rt, name)?);
        scripts += 1;
        rest = others;
    }
    print_totals(rt, scripts, same)
}

// The first line of a text, and what comes after it.
fn split_line(text: &[u8]) -> (&[u8], &[u8])
    ensures { 0 < length text.now → length result.1.now < length text.now }
{
    match text.iter().position(|&b| b == b'\n') {
        Some(end) => (&text[..end], &text[end + 1..]),
        None => (text, &[]),
    }
}

// One script, from NAME.script, and its stored output, from NAME.out: whether they agree.
fn run_script(rt: &(impl Files + Print + Eprint), name: &[u8]) -> io::Result<bool> {
    let mut buffer = [0u8; 4096];
    let bytes = read_named(rt, name, b".script", &mut buffer);
    let mut stored = [0u8; 4096];
    let want = read_named(rt, name, b".out", &mut stored);
    let compared = draw_script(bytes, want);
    rt.write_all(name)?;
    match compared {
        Ok(()) => println!(rt; " same")?,
        Err(differs) => println!(rt; " {differs}")?,
    }
    Ok(compared.is_ok())
}

fn print_totals(rt: &impl Print, scripts: u64, same: u64) -> io::Result<()>
    requires { same ≤ scripts }
{
    let differing = scripts - same;
    println!(rt; "scripts {scripts}, same {same}, differing {differing}")
}

fn read_named<'a>(
    rt: &(impl Files + Eprint),
    name: &[u8],
    ending: &[u8],
    buffer: &'a mut [u8],
) -> &'a [u8]
    ensures { length result.now ≤ length buffer.old }
{
    let mut path = [0u8; 64];
    let n = put(name, 0, &mut path);
    let end = put(ending, n, &mut path);
    read_file(rt, &path[..end], buffer)
}

// Puts `text` in `out` at `at`, as far as there is room.
fn put(text: &[u8], at: usize, out: &mut [u8]) -> usize
    requires { at ≤ length out.old }
    ensures { IsPrefixLen result out.new }
{
    let n = text.len().min(out.len() - at);
    let end = at + n;
    out[at..end].copy_from_slice(&text[..n]);
    end
}

// The bytes of a file. One that cannot be opened or does not fit counts as empty, and no output is empty.
fn read_file<'a>(rt: &(impl Files + Eprint), path: &[u8], buffer: &'a mut [u8]) -> &'a [u8]
    ensures { length result.now ≤ length buffer.old }
{
    let text = std::str::from_utf8(path).unwrap_or("");
    match File::open(rt, text) {
        Ok(mut file) => {
            let n = read_full(&mut file, buffer);
            if n < buffer.len() { &buffer[..n] } else { &[] }
        }
        Err(e) => {
            let _ = eprintln!(rt; "{text}: {e}");
            &[]
        }
    }
}

// Reads until `buffer` is full, the input ends or a read fails: how many bytes are at its start.
fn read_full<R: Read>(from: &mut R, buffer: &mut [u8]) -> usize
    ensures { IsPrefixLen result buffer.new }
{
    let mut done = 0;
    while let n @ 1.. = from.read(&mut buffer[done..]).unwrap_or(0) {
        done += n;
    }
    done
}

// Memory is 16,384 words, cleared for each script.
fn draw_script(bytes: &[u8], want: &[u8]) -> Result<(), Differs> {
    let mut mem = [0u16; 16384];
    let script = script::feed(script::begin(), bytes, &mut mem);
    compare_text(script, &mem, want)
}

// The script's text, compared as its pieces come.
fn compare_text(script: Step, mem: &[u16; 16384], want: &[u8]) -> Result<(), Differs> {
    let mut at = 0;
    let mut text = text::begin(script, mem);
    let mut out = [0u8; 2048];
    while let Some(Piece { count, after }) = text.next(mem, &mut out) {
        at = compare(&out[..count], want, at)?;
        text = after;
    }
    if at < want.len() {
        Err(Differs { at })
    } else {
        Ok(())
    }
}

// The end of a piece of the output, if it stands in the stored bytes at `at`.
#[tactic(auto, using(crate::proofs::AlikeLaws::begin_alike))]
fn compare(piece: &[u8], want: &[u8], at: usize) -> Result<usize, Differs>
    requires { at ≤ length want.now }
    ensures { IfOk result (λ end. (end ≡ at + length piece.now) × (end ≤ length want.now)) }
{
    let n = alike(piece, &want[at..]);
    let end = at + n;
    if n < piece.len() {
        Err(Differs { at: end })
    } else {
        Ok(end)
    }
}

// How many bytes two texts begin with alike.
fn alike(a: &[u8], b: &[u8]) -> usize
    ensures { result ≡ Counts·alike a.now b.now }
{
    a.iter().zip(b).take_while(|(x, y)| x == y).count()
}
