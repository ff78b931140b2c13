// Memory with its marks.
ghost use Rattle.std.specs.Prelude.{◌≡◌, length};

// Memory, and one mark byte for each of its words: what the word was read as, 0 while it is not read.
#[derive(Drop)]
pub struct Marked<'a> {
    pub mem: &'a [u16],
    pub marks: &'a mut [u8],
    pub ghost one_for_each: { length marks.now ≡ length mem.now },
}
