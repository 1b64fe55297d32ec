use std::env::{Env, FillError};

// The program's name in its own texts.
const NAME: [u8; 5] = *b"audit";

/// An environment in which the program has this name, whatever path it was started by. That path may not be text, and
/// nothing depends on it.
#[derive(Drop)]
pub struct Named<'a, E>(pub &'a E);

impl<E: Env> Env for Named<'_, E> {
    fn arg(&self, i: usize, buf: &mut [u8]) -> Result<usize, FillError> {
        if i > 0 {
            return self.0.arg(i, buf);
        }
        let Some(front) = buf.first_chunk_mut() else {
            return Err(FillError::TooLong);
        };
        *front = NAME;
        Ok(NAME.len())
    }

    fn var(&self, name: &str, buf: &mut [u8]) -> Result<usize, FillError> {
        self.0.var(name, buf)
    }

    fn var_at(&self, i: usize, buf: &mut [u8]) -> Result<usize, FillError> {
        self.0.var_at(i, buf)
    }
}
