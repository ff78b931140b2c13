#![tactic(auto)]
// The text that the glide program prints: the frames of a script whose draws are frames one after the other.
ghost use Rattle.std.specs.Prelude.{◌≡◌};
ghost use Rattle.memory.specs.Word.{when◌then◌else◌};
ghost use Rattle.script.specs.Feeding.{counted};
ghost use Rattle.glide_text.specs.GlideText.{first_glide, shifted, after_frame, at_rest, soft_after, with_script, past_draw};
ghost use Rattle.glide_text.specs.ToCome.{Resumes, Reads, Stops, Finishes};

use memory::Refusal;
use script::{Script, Step};
use scroll::{FrameShift, Scroll};
use settings::PointerWords;

// Where a glide stands: the script so far, whose settings' TOP is the hard top; the soft top, registers 04h and 05h; the scroll of the
// last frame and the latch that it handed on; how many frames were drawn.
#[derive(Clone, Copy)]
pub struct Glide {
    pub script: Script,
    pub soft: PointerWords,
    pub scroll: Scroll,
    pub latch: u16,
    pub frames: u64,
}

// What follows a frame: the input's next bytes; or frames, so many at most, since the input is at its end.
#[derive(Clone, Copy)]
pub enum Follow {
    Input,
    Frames(u32),
}

// What of a text is still to come.
#[derive(Clone, Copy)]
pub enum Text {
    Reading(Glide), // it goes on with the next byte
    Drawing {
        glide: Glide,
        follow: Follow,
    }, // a shift call and its frame
    Stretches {
        glide: Glide,
        follow: Follow,
        left: u32,
        y: u32,
    }, // the frame's stretches from line y on, so many at most
    EndFrames(u64), // the line that tells how many frames there were
    NoScript(u64), // the line of a script that is refused at this offset
    Refused(Refusal), // the line of a refusal
    Ended,
}

// A glide before its first record.
pub fn begin() -> Glide
    ensures { result ≡ first_glide }
{
    let script = script::begin();
    let soft = PointerWords {
        first: 0,
        second: 0,
    };
    let scroll = Scroll {
        shift: 0,
        phase: 0,
        direction: 0,
    };
    Glide {
        script,
        soft,
        scroll,
        latch: 0,
        frames: 0,
    }
}

// The next byte of the input; what it stores goes to `mem`.
pub fn read_byte(glide: Glide, byte: u8, mem: &mut [u16; 16384]) -> Text
    ensures { Reads glide byte mem.old mem.new result }
{
    match script::read_byte(glide.script, byte, mem) {
        Step::More(next) => Text::Reading(with_script(glide, next)),
        Step::Draw(_) => Text::Drawing {
            glide: past_draw(glide),
            follow: Follow::Input,
        },
        Step::Refused(offset) => Text::NoScript(offset),
    }
}

// The input ends here: just after a draw frames go on.
pub fn end_input(glide: Glide) -> Text
    ensures { Stops glide result }
{
    if (glide.script.kind == 0) & (0 < glide.frames) {
        resume(glide, Follow::Frames(256))
    } else {
        Text::NoScript(script::at_end(glide.script))
    }
}

// What follows a frame.
fn resume(glide: Glide, follow: Follow) -> Text
    ensures { Resumes glide follow result }
{
    match follow {
        Follow::Input => Text::Reading(glide),
        Follow::Frames(left) => {
            if (left == 0) | is_at_rest(glide.scroll) {
                Text::EndFrames(glide.frames)
            } else {
                Text::Drawing {
                    glide,
                    follow: Follow::Frames(left - 1),
                }
            }
        }
    }
}

// Has a scroll no shift and no phase?
fn is_at_rest(s: Scroll) -> bool
    ensures { result ≡ at_rest s }
{
    (panel::lines_of(s.shift) == 0) & (s.phase == 0)
}

// What follows the stretches of a frame: its refusal, or the frame after it.
fn finish_frame(glide: Glide, follow: Follow, mem: &[u16]) -> Text
    ensures { Finishes glide follow mem.now result }
{
    let settings = glide.script.settings;
    match frame::begin(settings, mem, glide.latch) {
        Err(refusal) => Text::Refused(refusal),
        Ok(progress) => {
            let state = progress.state;
            match finding::end_of(settings, mem, state) {
                Err(refusal) => Text::Refused(refusal),
                Ok(last) => resume(after_frame(glide, last.latch), follow),
            }
        }
    }
}

// After a frame: the latch that it hands on, and one frame more.
fn after_frame(glide: Glide, latch: u16) -> Glide
    ensures { result ≡ after_frame glide latch }
{
    Glide {
        latch,
        frames: count(glide.frames),
        ..glide
    }
}

// After a shift call: its scroll, and its hard top.
fn shifted(glide: Glide, s: FrameShift) -> Glide
    ensures { result ≡ shifted glide s }
{
    let settings = beside::with_top(glide.script.settings, s.top);
    Glide {
        script: Script {
            settings,
            ..glide.script
        },
        scroll: s.scroll,
        ..glide
    }
}

// A script one byte further, with what it says of the soft top.
fn with_script(glide: Glide, script: Script) -> Glide
    ensures { result ≡ with_script glide script }
{
    Glide {
        script,
        soft: soft_after(script, glide.soft),
        ..glide
    }
}

// The soft top, where a record of register 04h or 05h may have just ended.
fn soft_after(s: Script, before: PointerWords) -> PointerWords
    ensures { result ≡ soft_after s before }
{
    let ended = (s.kind == 1) & (s.left == 0);
    let register = s.body / 65536;
    let value = (s.body % 65536) as u16;
    PointerWords {
        first: chosen(ended & (register == 4), value, before.first),
        second: chosen(ended & (register == 5), value, before.second),
    }
}

fn chosen(test: bool, a: u16, b: u16) -> u16
    ensures { result ≡ (when test then a else b) }
{
    if test { a } else { b }
}

// A script after a draw, with no record in hand.
fn past_draw(glide: Glide) -> Glide
    ensures { result ≡ past_draw glide }
{
    let script = Script {
        read: count(glide.script.read),
        start: glide.script.read,
        kind: 0,
        left: 0,
        body: 0,
        ..glide.script
    };
    Glide { script, ..glide }
}

// One more, counted with 64 bits.
fn count(n: u64) -> u64
    ensures { result ≡ counted n }
{
    n.wrapping_add(1)
}
