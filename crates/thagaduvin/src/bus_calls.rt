// The call of the bus report: running totals and a row's figures, as lent slices of 64-bit numbers.
ghost use Rattle.std.specs.Prelude.{◌≡◌};
ghost use Rattle.bus.specs.Numbers.{called};
ghost use Rattle.thagaduvin.specs.BusCalls.{host_bus};

use bus::BusRow;

// A row handed in: its figures in `answer`, and the running totals in `totals`, brought up to date. A refusal writes nothing.
#[tactic(auto, unfolding(crate::specs::BusCalls::host_bus))]
pub fn thagaduvin_bus(
    burst: u16,
    words: u32,
    screen: u32,
    row: u32,
    totals: &mut [u64],
    answer: &mut [u64],
) -> u8
    ensures { called result totals.new answer.new ≡ host_bus (record { burst = burst; words = words; screen = screen; row = row }) totals.old answer.old }
{
    let Some(totals) = totals.as_mut_array() else {
        return 255;
    };
    let Some(answer) = answer.as_mut_array() else {
        return 255;
    };
    if 1 < totals[6] {
        return 255;
    }
    let before = bus::numbers::totals_at(totals);
    let handed_in = BusRow {
        burst,
        words,
        screen,
        row,
    };
    bus::numbers::write_report(bus::report_by_value(before, handed_in), totals, answer)
}
