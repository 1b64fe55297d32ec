//! Lines of figures on standard error.
use std::fmt;

/// Figures, each of which follows its name.
#[derive(Clone, Copy)]
struct Line<'a> {
    figures: &'a [(&'a str, u128)],
}

impl<'a> fmt::Display for Line<'a> {
    fn fmt<W: fmt::Write>(&self, f: &mut fmt::Formatter<W>) -> fmt::Result {
        let mut gap = "";
        for (name, figure) in self.figures {
            write!(f, "{gap}{name} {figure}")?;
            gap = " ";
        }
        Ok(())
    }
}

/// Prints a line of figures and their names.
pub fn print_figures<R: Eprint>(rt: &R, figures: &[(&str, u128)]) -> anyhow::Result<()> {
    eprintln!(rt; "{}", Line { figures })?;
    Ok(())
}
