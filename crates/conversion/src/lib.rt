#![tactic(auto)]
// The conversion of segmented lists (document 02, "Segmented memory goes away"): a frame is followed first, its words marked and nothing
// changed; then one pass over the marks turns the first word of each pointer.
ghost use Rattle.std.specs.Prelude.{◌≡◌, ◌+◌, ◌≤◌, length};
ghost use Rattle.converter.specs.Converter.{turned, turned_memory, turned_register, turned_settings, change, changes, register_changes, convert_call};
ghost use Rattle.conversion.specs.Answers.{called};

use converter::Conversion;
use following::rows;
use memory::Refusal;
use settings::{PointerWords, Settings};

// Segmented lists turned into linear ones: the pointers that a frame from a latch reads, in `mem`, and TOP and TOW. `marks` has one mark
// for each word, whatever it holds. Refusal 22, 2, 26, then as the walk meets them; a refusal changes nothing but marks.
pub fn convert(
    settings: Settings,
    mem: &mut [u16],
    marks: &mut [u8],
    latch: u16,
) -> Result<Conversion, Refusal>
    ensures { called result mem.new ≡ convert_call latch settings mem.old (length marks.old) }
{
    if marks.len() != mem.len() {
        return memory::refused(22);
    }
    if !settings::is_good(settings) {
        return memory::refused(2);
    }
    if settings.linear {
        return memory::refused(26);
    }
    marks.fill(0);
    rows::follow(settings, mem, marks, latch)?;
    let words = turn(mem, marks);
    Ok(Conversion {
        settings: turned_settings(settings),
        pointers: words + register_changes(settings),
    })
}

// The first word of each pointer turned; how many words have changed.
fn turn(mem: &mut [u16], marks: &[u8]) -> u64
    requires { length marks.now ≡ length mem.old }
    ensures { (mem.new ≡ turned_memory marks.now mem.old) × (result ≡ changes mem.old (turned_memory marks.now mem.old)) × (result ≤ length mem.old) }
{
    let mut count = 0;
    for (i, word) in mem.iter_mut().enumerate() {
        let old = *word;
        *word = turned_word(marks[i], old);
        count += change(old, *word);
    }
    count
}

// A word with its mark, turned where it is the first of a pointer.
fn turned_word(mark: u8, w: u16) -> u16
    ensures { result ≡ turned mark w }
{
    if mark == 1 { w / 256 % 128 } else { w }
}

// 1 where another word takes the place of one.
fn change(old: u16, new: u16) -> u64
    ensures value { result ≡ change old new }
    ensures upper_bound { result ≤ 1 }
{
    if new == old { 0 } else { 1 }
}

// How many of TOP and TOW change.
fn register_changes(settings: Settings) -> u64
    ensures value { result ≡ register_changes settings }
    ensures upper_bound { result ≤ 2 }
{
    let top = settings.top;
    let tow = settings.tow;
    change(top.first, turned_word(1, top.first)) + change(tow.first, turned_word(1, tow.first))
}

// The settings, linear, with TOP and TOW turned.
#[tactic(auto, unfolding(converter::specs::Converter::turned_settings))]
fn turned_settings(settings: Settings) -> Settings
    ensures { result ≡ turned_settings settings }
{
    Settings {
        linear: true,
        top: turned_register(settings.top),
        tow: turned_register(settings.tow),
        ..settings
    }
}

// A register's two words, turned.
fn turned_register(p: PointerWords) -> PointerWords
    ensures { result ≡ turned_register p }
{
    PointerWords {
        first: p.first / 256 % 128,
        second: p.second,
    }
}
