#![tactic(auto)]
// The effect of a row on the latch.
ghost use Rattle.std.specs.Prelude.{◌≡◌, Option};
ghost use Rattle.memory.specs.Reading.{given, run};
ghost use Rattle.plan.specs.Plan.{plan};
ghost use Rattle.plan.specs.Answers.{plan_of};
ghost use Rattle.state.specs.State.{state_of};
ghost use Rattle.row.specs.Row.{row};
ghost use Rattle.state.specs.declared.Fields.{Fields};
ghost use Rattle.effect.specs.Effect.{part_of, next_of, effect_call};
ghost use Rattle.effect.specs.Answers.{same_parts, part_drawn, next_drawn, effect_drawn, refused_effect};

use cells::CellsDrawn;
use joining::{Effect, Part};
use latch::LatchEffect;
use memory::Fault;
use plan::PlanHead;
use settings::Settings;
use state::Fields;

// The answer of an effect call.
#[derive(Clone, Copy)]
pub struct EffectAnswer {
    pub effect: Effect,
    pub next: Option<Fields>,
}

// The effect of a row, with the next state's fields, or its plan's refusal for either latch.
pub fn row_effect(settings: Settings, mem: &[u16], fields: Fields) -> EffectAnswer
    ensures { result ≡ effect_call settings mem.now fields }
{
    let mut back = [0u16; 75];
    let mut window = [0u16; 75];
    match plan::plan_row(mem, settings, fields, &mut back, &mut window) {
        Ok(p) => planned_effect(settings, mem, fields, p, &back, &window),
        Err(fault) => refused_effect(fields, fault),
    }
}

// The effect of a planned row: what becomes of the latch is told without its cells, and where that is unclear, the row is drawn.
fn planned_effect(
    settings: Settings,
    mem: &[u16],
    fields: Fields,
    p: PlanHead,
    back: &[u16; 75],
    window: &[u16; 75],
) -> EffectAnswer
    requires { given p.words (plan_of settings.linear p back.now window.now) ≡ run mem.now (plan settings fields) }
    ensures { result ≡ effect_call settings mem.now fields }
{
    let fill = fields.fill;
    let overlay = p.overlay;
    let code = row::code_settings(settings);
    let part = match latch::row_latch(mem, code, fill, overlay, back, p.count, window) {
        LatchEffect::Kept => Part::Keep,
        LatchEffect::Latched(w) => Part::Set(w),
        LatchEffect::Unclear => return drawn_effect(settings, mem, fields, p, back, window),
    };
    same_parts(part, p)
}

// The answer for a row whose plan is refused, for either latch.
fn refused_effect(fields: Fields, fault: Fault) -> EffectAnswer
    ensures { result ≡ refused_effect fields fault }
{
    let refused = Err(fault);
    effect_of(fields, fields, refused, refused)
}

// The answer for a planned row that has the same part with ignore clear and with it set.
fn same_parts(part: Part, p: PlanHead) -> EffectAnswer
    ensures { result ≡ same_parts part p.next }
{
    let effect = Effect {
        clear: part,
        set: part,
    };
    let next = p.next;
    EffectAnswer {
        effect,
        next: Some(next),
    }
}

// The effect of a planned row: its cells from a latch with ignore clear and from one with it set.
fn drawn_effect(
    settings: Settings,
    mem: &[u16],
    fields: Fields,
    p: PlanHead,
    back: &[u16; 75],
    window: &[u16; 75],
) -> EffectAnswer
    requires { given p.words (plan_of settings.linear p back.now window.now) ≡ run mem.now (plan settings fields) }
    ensures { result ≡ effect_call settings mem.now fields }
{
    let clear = draw_from(settings, mem, fields, p, back, window, 0);
    let set = draw_from(settings, mem, fields, p, back, window, 0x2000);
    let next = p.next;
    effect_of(fields, next, clear, set)
}

// The cells of a planned row from a latch, for what becomes of that.
fn draw_from(
    settings: Settings,
    mem: &[u16],
    fields: Fields,
    p: PlanHead,
    back: &[u16; 75],
    window: &[u16; 75],
    latch: u16,
) -> Result<CellsDrawn, Fault>
    requires { given p.words (plan_of settings.linear p back.now window.now) ≡ run mem.now (plan settings fields) }
    ensures result_value { part_drawn fields result ≡ part_of fields (run mem.now (row settings (state_of latch fields))) }
    ensures x_value { (x : Option Fields) → next_drawn p.next result x ≡ next_of (run mem.now (row settings (state_of latch fields))) x }
{
    let fill = fields.fill;
    let overlay = p.overlay;
    let count = p.count;
    let code = row::code_settings(settings);
    let mut cells = [0u32; 132];
    cells::draw_cells(
        mem, code, fill, overlay, back, count, window, latch, p.words, &mut cells,
    )
}

// The answer of an effect call, from a row's cells with ignore clear and with it set.
fn effect_of(
    fields: Fields,
    reached: Fields,
    clear: Result<CellsDrawn, Fault>,
    set: Result<CellsDrawn, Fault>,
) -> EffectAnswer
    ensures { result ≡ effect_drawn fields reached clear set }
{
    let effect = Effect {
        clear: part_of(fields, clear),
        set: part_of(fields, set),
    };
    let next = next_of(reached, clear, next_of(reached, set, None));
    EffectAnswer { effect, next }
}

// The part that a row has, drawn from a latch of its ignore.
fn part_of(fields: Fields, d: Result<CellsDrawn, Fault>) -> Part
    ensures { result ≡ part_drawn fields d }
{
    match d {
        Err(fault) => Part::Refuse(memory::refusal_of(fields.row, fault)),
        Ok(drawn) => {
            if drawn.latched {
                Part::Set(drawn.latch)
            } else {
                Part::Keep
            }
        }
    }
}

// The fields reached, or those given where the row is refused.
fn next_of(
    reached: Fields,
    d: Result<CellsDrawn, Fault>,
    otherwise: Option<Fields>,
) -> Option<Fields>
    ensures { result ≡ next_drawn reached d otherwise }
{
    match d {
        Err(_) => otherwise,
        Ok(_) => Some(reached),
    }
}
