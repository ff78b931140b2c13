#![tactic(auto)]
// A screen as terminal text: a script of the draw program on standard input, and on standard output the text of its rows.
ghost use Rattle.std.specs.Prelude.{OnOk};
ghost use Rattle.script_input.specs.Reader.{Prints};
ghost use Rattle.mail_text.specs.MailText.{output};

use mail_text::Mail;
use std::io;
use std::io::{Read, Write};

fn main(rt: HostRuntime) -> io::Result<()> {
    mail(&mut rt.stdin(), &mut rt.stdout())
}

// A script's bytes, and the text of them. Memory is 16,384 words.
fn mail<R: Read, W: Write>(input: &mut R, to: &mut W) -> io::Result<()>
    ensures { OnOk result (Prints output (R.remaining input.old) (R.remaining input.new) (W.contents to.old) (W.contents to.new)) }
{
    let mut mem = [0u16; 16384];
    let script = script_input::read_script(input, &mut mem);
    let text = mail_text::begin(script, &mem);
    script_input::print(to, Mail(text), &mem)
}
