// What is written: a line for each row drawn alone, and the counts.
use crate::Drawn;
use memory::Refusal;
use std::{fmt, io};

// How many of the rows drawn alone are the same as in turn, and how many differ.
#[derive(Clone, Copy)]
pub(crate) struct Count {
    pub(crate) same: u32,
    pub(crate) differing: u32,
}

impl Count {
    // With one row more.
    fn with(self, same: bool) -> Count {
        if same {
            Count {
                same: self.same.wrapping_add(1),
                ..self
            }
        } else {
            Count {
                differing: self.differing.wrapping_add(1),
                ..self
            }
        }
    }
}

// What a line says of a refusal.
#[derive(Clone, Copy)]
struct RefusalText(Refusal);

impl fmt::Display for RefusalText {
    fn fmt<W: fmt::Write>(&self, f: &mut fmt::Formatter<W>) -> fmt::Result {
        let Refusal {
            number,
            row,
            address,
            from,
        } = self.0;
        write!(f, "refused {number} row {row} at {address:06x}")?;
        if number == 7 {
            write!(f, " from {from:06x}")?;
        }
        Ok(())
    }
}

// What a line says of a row.
#[derive(Clone, Copy)]
struct OutcomeText(Result<Drawn, Refusal>);

impl fmt::Display for OutcomeText {
    fn fmt<W: fmt::Write>(&self, f: &mut fmt::Formatter<W>) -> fmt::Result {
        match self.0 {
            Ok(Drawn { row, .. }) => {
                let number = row.number;
                let lines = row.lines;
                let words = row.words;
                write!(f, "row {number} lines {lines} words {words}")
            }
            Err(refusal) => {
                let refused = RefusalText(refusal);
                write!(f, "{refused}")
            }
        }
    }
}

pub(crate) fn frame(rt: &impl Print, n: u16) -> io::Result<()> {
    println!(rt; "frame {n}")
}

// A row drawn alone: the number of its call, whether it is the same, and its answer.
pub(crate) fn row(
    rt: &impl Print,
    call: usize,
    same: bool,
    alone: Result<Drawn, Refusal>,
    count: Count,
) -> io::Result<Count> {
    let compared = if same { "same" } else { "differs" };
    let outcome = OutcomeText(alone);
    println!(rt; "call {call} {compared}, {outcome}")?;
    Ok(count.with(same))
}

pub(crate) fn total(rt: &impl Print, count: Count) -> io::Result<()> {
    let Count { same, differing } = count;
    println!(rt; "rows drawn alone: same {same}, differing {differing}")
}

pub(crate) fn refused(rt: &impl Print, refusal: Refusal) -> io::Result<()> {
    let refused = RefusalText(refusal);
    println!(rt; "{refused}")
}
