#![tactic(auto)]
// The settings of a desk, and the settings sheet: timing, lines for rows, clocks and invoking codes.
ghost use Rattle.std.specs.Prelude.{◌≡◌, List, ℕ, ◌-◌, ◌*◌, ◌≤◌};
ghost use Rattle.memory.specs.Reading.{run_from};
ghost use Rattle.settings.specs.Good.{interlace_of, edition_of, good, in_range, shown_columns, in_order, fits_fields, fits_mode, fits_mask, fits_display, fits_edition, check_settings, Ordered};
ghost use Rattle.settings.specs.Timing.{half_lines, parity, added, timing, lines_for_rows, clocks, invoking_codes};
ghost use Rattle.settings.specs.Sheet.{sheet_of, sheet_call};
ghost use Rattle.settings.specs.AfterEnable.{field_at, parts_of};
ghost use Rattle.settings.specs.Answers.{settings_checked};

use memory::{Fault, Refusal};

// The interlace mode: none, repeat field (RFI) or video (IV).
#[derive(Clone, Copy)]
pub enum Interlace {
    Progressive,
    RepeatField,
    Video,
}

// The interlace mode of document 01's number.
impl From<u32> for Interlace {
    ghost from_gives = { λ number mode. mode ≡ interlace_of number };

    fn from(number: u32) -> Interlace {
        match number {
            0 => Interlace::Progressive,
            1 => Interlace::RepeatField,
            _ => Interlace::Video,
        }
    }
}

// The timing edition: AMD's part or Zilog's.
#[derive(Clone, Copy)]
pub enum Edition {
    Am8052,
    Z8052,
}

// The edition of the number that the calls in C have for it.
impl From<u32> for Edition {
    ghost from_gives = { λ number edition. edition ≡ edition_of number };

    fn from(number: u32) -> Edition {
        match number {
            0 => Edition::Am8052,
            _ => Edition::Z8052,
        }
    }
}

// The two fields of an interlaced picture.
#[derive(Clone, Copy)]
pub enum Field {
    Even,
    Odd,
}

// The two words of a pointer that a register holds.
#[derive(Clone, Copy)]
pub struct PointerWords {
    pub first: u16,
    pub second: u16,
}

// A desk's settings: linear or segmented memory, Display Hidden, the interlace mode, cursor enable, the attribute flag (mask high
// byte, value low byte), TOP and TOW, the numbers of the timing, and the timing edition.
#[derive(Clone, Copy)]
pub struct Settings {
    pub linear: bool,
    pub hidden: bool,
    pub interlace: Interlace,
    pub cursor: bool,
    pub flag: u16,
    pub top: PointerWords,
    pub tow: PointerWords,
    pub vsw: u16,
    pub vsd: u16,
    pub val: u16,
    pub vtot: u16,
    pub hsync: u16,
    pub hsd: u16,
    pub htc: u16,
    pub htd: u16,
    pub edition: Edition,
}

// Vertical counts of a field, in half lines; `rise` is from the fall of sync to the rise of blank.
#[derive(Clone, Copy)]
pub struct Timing {
    pub sync: u16,
    pub back: u16,
    pub rise: u16,
    pub active: u16,
    pub front: u16,
    pub field: u16,
}

// Horizontal counts, in clocks; `rise` and `fall` are those of blank, from the rise of sync.
#[derive(Clone, Copy)]
pub struct Clocks {
    pub sync: u16,
    pub period: u16,
    pub rise: u16,
    pub fall: u16,
}

// What the settings sheet gives: the timing of even and of odd fields; `invoking` codes of the 256 invoke an attribute.
#[derive(Clone, Copy)]
pub struct Sheet {
    pub even: Timing,
    pub odd: Timing,
    pub lines: u16,
    pub clocks: Clocks,
    pub invoking: u16,
}

// The settings sheet, or refusal 2.
pub fn settings_sheet(settings: Settings) -> Result<Sheet, Refusal>
    ensures { result ≡ sheet_call settings }
{
    if is_good(settings) {
        Ok(sheet_of(settings))
    } else {
        memory::refused(2)
    }
}

// The timing of field n after enable, counted from 0.
pub fn field_timing(sheet: Sheet, n: u32) -> Timing
    ensures { result ≡ parts_of sheet (field_at n) }
{
    if n % 2 == 0 { sheet.even } else { sheet.odd }
}

// The checks on settings that a start, a row, an effect and a shift call begin with: 2, then 17.
pub fn check_settings(settings: Settings) -> Result<(), Fault>
    ensures { (n : ℕ) (m : List ℕ) → settings_checked n result ≡ run_from n m (check_settings settings) }
{
    if is_good(settings) {
        if settings.linear {
            Ok(())
        } else {
            Err(memory::fault_of(17))
        }
    } else {
        Err(memory::fault_of(2))
    }
}

// Are the settings good? Every test is made (`&`), so there is one way through; the tests of a mode or an edition are made before its
// match, so that each stands in the code once and a row's check is compiled in place.
pub fn is_good(settings: Settings) -> bool
    ensures { result ≡ good settings }
{
    in_range(settings) & in_order(settings) & fits_mode(settings) & fits_edition(settings)
}

// The lines for rows.
pub fn lines_for_rows(settings: Settings) -> u16
    ensures { result ≡ lines_for_rows settings }
{
    let lines = settings.val.saturating_sub(settings.vsd);
    let interlace = settings.interlace;
    match interlace {
        Interlace::Progressive => lines,
        Interlace::RepeatField => lines / 2,
        Interlace::Video => lines,
    }
}

// The shown columns, HTD - HSD: 0 where HTD is below.
pub fn shown_columns(settings: Settings) -> u16
    ensures { result ≡ shown_columns settings }
{
    settings.htd.saturating_sub(settings.hsd)
}

fn in_range(s: Settings) -> bool
    ensures { result ≡ in_range s }
{
    (s.vsw <= 63)
        & (s.vsd <= 63)
        & (s.val <= 4095)
        & (s.vtot <= 4095)
        & (s.hsync <= 255)
        & (s.hsd <= 511)
        & (s.htc <= 1023)
        & (s.htd <= 1023)
}

fn in_order(s: Settings) -> bool
    ensures { result ≡ in_order s }
{
    (s.vsd < s.val)
        & (s.val <= s.vtot)
        & (s.hsync < s.htc)
        & (s.hsd < s.htd)
        & (s.htd <= s.htc)
        & (shown_columns(s) <= 132)
}

fn fits_mode(s: Settings) -> bool
    ensures { result ≡ fits_mode s.interlace s }
{
    let interlace = s.interlace;
    let fits = fits_fields(s);
    match interlace {
        Interlace::Progressive => true,
        Interlace::RepeatField => fits,
        Interlace::Video => fits,
    }
}

// May two fields be interlaced?
fn fits_fields(s: Settings) -> bool
    ensures { result ≡ fits_fields s }
{
    (s.vsw % 2 == 1) & (s.vsd % 2 == 1) & (s.val % 2 == 1) & (s.vtot % 2 == 0) & (s.htc % 2 == 1)
}

// 003's two notes, which hold for the Z8052.
fn fits_edition(s: Settings) -> bool
    ensures { result ≡ fits_edition s.edition s }
{
    let edition = s.edition;
    let interlace = s.interlace;
    let fits = fits_mask(s.flag) & fits_display(interlace, s.htd);
    match edition {
        Edition::Am8052 => true,
        Edition::Z8052 => fits,
    }
}

// Has the value of the flag no bit outside its mask?
fn fits_mask(flag: u16) -> bool
    ensures { result ≡ fits_mask flag }
{
    let value = flag % 256;
    value & (flag / 256) == value
}

// Is HTD odd when interlaced?
fn fits_display(interlace: Interlace, htd: u16) -> bool
    ensures { result ≡ fits_display interlace htd }
{
    let odd = htd % 2 == 1;
    match interlace {
        Interlace::Progressive => true,
        Interlace::RepeatField => odd,
        Interlace::Video => odd,
    }
}

// The half lines of a count in the timing table: mode none has two for each.
fn half_lines(interlace: Interlace, lines: u16) -> u16
    requires { lines ≤ 4160 }
    ensures { result ≡ half_lines interlace * lines }
{
    match interlace {
        Interlace::Progressive => 2 * lines,
        Interlace::RepeatField => lines,
        Interlace::Video => lines,
    }
}

// What is added to VSD and to VAL: 1, or 0 in an interlaced even field of the Z8052.
fn added(edition: Edition, interlace: Interlace, field: Field) -> u16
    ensures { (result ≡ added edition interlace field) × (result ≤ 1) }
{
    match edition {
        Edition::Am8052 => 1,
        Edition::Z8052 => match interlace {
            Interlace::Progressive => 1,
            Interlace::RepeatField => parity(field),
            Interlace::Video => parity(field),
        },
    }
}

fn parity(field: Field) -> u16
    ensures { result ≡ parity field }
{
    match field {
        Field::Even => 0,
        Field::Odd => 1,
    }
}

fn timing_of(s: Settings, field: Field) -> Timing
    requires { Ordered s }
    ensures { result ≡ timing s field }
{
    let interlace = s.interlace;
    let edition = s.edition;
    let more = added(edition, interlace, field);
    Timing {
        sync: half_lines(interlace, s.vsw + 1),
        back: half_lines(interlace, s.vsd + more),
        rise: half_lines(interlace, s.val + more),
        active: half_lines(interlace, s.val - s.vsd),
        front: half_lines(interlace, s.vtot + 1 - (s.val + more)),
        field: half_lines(interlace, s.vsw + s.vtot + 2),
    }
}

fn clocks_of(s: Settings) -> Clocks
    requires { Ordered s }
    ensures { result ≡ clocks s }
{
    Clocks {
        sync: s.hsync + 1,
        period: s.htc + 1,
        rise: s.htd + 1,
        fall: s.hsd + 1,
    }
}

// The number of codes that the flag's mask, its high byte, leaves.
fn invoking_codes(flag: u16) -> u16
    ensures { result ≡ invoking_codes flag }
{
    let mask = flag as u32 / 256;
    (256u32 >> u32::count_ones(mask)) as u16
}

fn sheet_of(s: Settings) -> Sheet
    requires { Ordered s }
    ensures { result ≡ sheet_of s }
{
    let even = timing_of(s, Field::Even);
    let odd = timing_of(s, Field::Odd);
    let clocks = clocks_of(s);
    Sheet {
        even,
        odd,
        lines: lines_for_rows(s),
        clocks,
        invoking: invoking_codes(s.flag),
    }
}
