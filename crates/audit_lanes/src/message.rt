//! A message with its padding, handed out block by block (FIPS 180-4, section 5.2.1).

ghost use Rattle.std.specs.Prelude.{◌≡◌, ◌≤◌, drop, length, take};
ghost use Rattle.sha2.specs.Sha256.{padded_message};

use crate::padding::Padding;
use crate::text::Text;
use std::marker::Model;

pub(crate) const BLOCK_LEN: usize = 64;

/// What is left of a message and its padding.
#[derive(Drop)]
pub(crate) struct Message<'a> {
    text: Text<'a>,
    padding: Padding,
}

impl<'a> Model for Message<'a> {
    ghost use Rattle.std.specs.Prelude.{ℕ, List, ◌++◌};

    ghost Value = { List ℕ };

    ghost view = { λ message. message.text ++ message.padding };
}

impl<'a> Message<'a> {
    /// The whole message of a text.
    pub(crate) fn new(text: Text<'a>) -> Message<'a>
        ensures { result ≡ padded_message text.entry }
    {
        let padding = Padding::new(text.total());
        Message { text, padding }
    }

    /// Takes the next block.
    pub(crate) fn next_block(&mut self) -> [u8; BLOCK_LEN]
        ensures block { 64 ≤ length self.old → result ≡ take 64 self.old }
        ensures rest { self.new ≡ drop 64 self.old }
    {
        let mut block = [0; BLOCK_LEN];
        let used = self.text.fill(&mut block);
        self.padding.fill(&mut block, used);
        block
    }
}
