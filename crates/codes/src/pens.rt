// Where drawing stands.
ghost use Rattle.std.specs.Prelude.{◌≡◌, ◌≤◌, length};
ghost use Rattle.codes.specs.Codes.{list_at, using_list, moved_to, taking, blank, character};
ghost use Rattle.codes.specs.Answers.{so_far};

use crate::{AttributeList, Pen, Room, attribute};
use memory::Pointer;

// The pen, built from its fields: a copy of the whole struct would carry its padding along.
pub fn anew(pen: Pen) -> Pen
    ensures { result ≡ pen }
{
    let next = Pointer {
        address: pen.list.next.address,
        from: pen.list.next.from,
    };
    let list = AttributeList {
        present: pen.list.present,
        next,
    };
    Pen {
        column: pen.column,
        latch: pen.latch,
        latched: pen.latched,
        list,
    }
}

// The pen at another column.
pub fn moved_to(column: usize, pen: Pen) -> Pen
    ensures { result ≡ moved_to column pen }
{
    Pen { column, ..pen }
}

// The pen with the list of an attribute pointer in use.
pub fn with_list(p: Pointer, pen: Pen) -> Pen
    ensures { result ≡ using_list (list_at p) pen }
{
    let list = AttributeList {
        present: p.address != 0,
        next: p,
    };
    using_list(list, pen)
}

// The pen with another list in use.
pub fn using_list(list: AttributeList, pen: Pen) -> Pen
    ensures { result ≡ using_list list pen }
{
    Pen { list, ..pen }
}

// The pen where a row begins.
pub fn blank(latch: u16) -> Pen
    ensures { result ≡ (blank latch).pen }
{
    let list = AttributeList {
        present: false,
        next: Pointer::NULL,
    };
    Pen {
        column: 0,
        latch,
        latched: false,
        list,
    }
}

// The pen once it has taken the word `w` of its list: bit 15 makes it the latch.
pub fn take_word(linear: bool, w: u16, pen: Pen) -> Pen
    ensures { result ≡ taking linear w pen }
{
    let rest = AttributeList {
        next: memory::onward(linear, pen.list.next),
        ..pen.list
    };
    if memory::bit_15(w) {
        Pen {
            latch: w,
            latched: true,
            list: rest,
            ..pen
        }
    } else {
        using_list(rest, pen)
    }
}

// A character goes into the row, unless it is ignored or has no room.
pub fn put_character(
    hidden: bool,
    room: Room,
    attribute: u16,
    code: u8,
    pen: Pen,
    cells: &mut [u32],
) -> Pen
    requires { (room.end ≤ length cells.old) × (pen.column ≤ room.end) }
    ensures column_le_end { result.column ≤ room.end }
    ensures cells_after { so_far result cells.new ≡ character hidden room.source room.end attribute code (so_far pen cells.old) }
{
    let column = pen.column;
    let end = room.end;
    if attribute::is_shown(hidden, attribute) & (column < end) {
        let source = room.source;
        cells[column] = attribute::cell(source, attribute, code);
        moved_to(column + 1, pen)
    } else {
        pen
    }
}
