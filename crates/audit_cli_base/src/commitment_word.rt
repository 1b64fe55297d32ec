//! A commitment as it is printed in a message.
use audit_proof::Commitment;
use std::fmt::{self, Display, Formatter, Write};

/// A commitment as COUNT:ROOT. It is printed without memory.
#[derive(Clone, Copy)]
pub(crate) struct CommitmentWord(pub(crate) Commitment);

impl Display for CommitmentWord {
    fn fmt<W: Write>(&self, f: &mut Formatter<W>) -> fmt::Result {
        write!(f, "{}:", self.0.count)?;
        for byte in &self.0.root {
            write!(f, "{byte:02x}")?;
        }
        Ok(())
    }
}
