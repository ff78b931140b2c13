// Attribute words, and the bits of a cell.
ghost use Rattle.std.specs.Prelude.{◌≡◌, ◌||◌, not};
ghost use Rattle.codes.specs.Attribute.{invokes, ignores, cell, code_of, attribute_of};

use crate::Source;

// Does the code invoke an attribute?
pub fn invokes(flag: u16, code: u8) -> bool
    ensures { result ≡ invokes flag code }
{
    let mask = memory::high_byte(flag);
    code & mask == memory::low_byte(flag) & mask
}

// Does the attribute let its character into the row?
pub fn is_shown(hidden: bool, attribute: u16) -> bool
    ensures { result ≡ hidden || not (ignores attribute) }
{
    hidden | !memory::bit_13(attribute)
}

// The cell of a character or of fill.
pub fn cell(source: Source, attribute: u16, code: u8) -> u32
    ensures { result ≡ cell source attribute code }
{
    code as u32
        + attribute as u32 % 2048 * 256
        + attribute as u32 / 16384 % 2 * 524288
        + source.kind as u32 % 4 * 1048576
        + source.window as u32 * 16777216
}

// The code of a cell.
pub fn code_of(cell: u32) -> u8
    ensures { result ≡ code_of cell }
{
    (cell % 256) as u8
}

// The low eleven bits of a cell's attribute.
pub fn attribute_of(cell: u32) -> u16
    ensures { result ≡ attribute_of cell }
{
    (cell / 256 % 2048) as u16
}
