// Printing. What a call is lent is filled beforehand, and is printed up to the last element that is not the filling.
use crate::lend::Element;
use std::io;
use std::io::Write;

// The most elements that are printed one by one.
const FEW: usize = 8;

// Equal elements, behind a space each. Of more than a few the number is printed, a star and the element.
fn show_run<E: Element>(output: &mut impl Write, run: &[E]) -> io::Result<()> {
    let digits = E::DIGITS;
    let length = run.len();
    if FEW < length {
        let element: u64 = run[0].into();
        return write!(output, " {length}*{element:0digits$x}");
    }
    for element in run {
        let element: u64 = (*element).into();
        write!(output, " {element:0digits$x}")?;
    }
    Ok(())
}

// A slice that was lent, by its name.
pub fn show<E: Element>(output: &mut impl Write, name: &str, lent: &[E]) -> io::Result<()> {
    write!(output, "; {name}")?;
    let kept = lent
        .iter()
        .rev()
        .take_while(|element| **element == E::FILLING)
        .count();
    for run in lent[..lent.len() - kept].chunk_by(|one, next| one == next) {
        show_run(output, run)?;
    }
    if kept < lent.len() {
        write!(output, ",")?;
    }
    write!(output, " {kept} kept")
}
