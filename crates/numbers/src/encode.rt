// A state as numbers at their places.
ghost use Rattle.std.specs.Prelude.{◌≡◌};
ghost use Rattle.numbers.specs.Encode.{held, state_numbers};

use memory::Pointer;
use state::State;
use windows::{Window, WindowBlock};

// A state's numbers; the places of a window are 0 where there is none.
pub fn write_state(state: State, into: &mut [u32; 23])
    ensures { into.new ≡ state_numbers state }
{
    let f = state.fields;
    let cursor = f.cursor;
    let fill = f.fill;
    let format = f.format;
    let in_hand = f.window;
    let w = held(in_hand);
    let b = w.block;
    *into = [
        state.latch as u32,
        f.row,
        f.left as u32,
        cursor.x as u32,
        cursor.y as u32,
        fill.code as u32,
        fill.flag as u32,
        format.lines as u32,
        format.attributes as u32,
        format.curs as u32,
        format.cure as u32,
        f.next.address,
        in_hand.is_some() as u32,
        b.top as u32,
        b.bottom as u32,
        b.left as u32,
        b.right as u32,
        w.rows.address,
        b.link.address,
        b.number as u32,
        f.next.from,
        w.rows.from,
        b.link.from,
    ];
}

// The window in hand, or one of zeros.
fn held(in_hand: Option<Window>) -> Window
    ensures { result ≡ held in_hand }
{
    let none = WindowBlock {
        number: 0,
        top: 0,
        bottom: 0,
        left: 0,
        right: 0,
        link: Pointer::NULL,
    };
    in_hand.unwrap_or(Window {
        block: none,
        rows: Pointer::NULL,
    })
}
