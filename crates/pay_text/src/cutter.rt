ghost use Rattle.std.specs.Prelude.{◌≡◌, Some, None, [], IfOk, is_some, if◌then◌else◌};
ghost use Rattle.std.specs.Option.{option_copied};
ghost use Rattle.pay_text.specs.Cutting.{line_with_byte, is_nothing};

use std::alloc::{AllocError, Global};
use std::marker::Model;

/// The line of a text that has begun, byte by byte. Nothing is held of a line that is over the
/// bound. Such a line is answered at its end, so that the answers don't depend on how the text is
/// cut.
#[derive(Drop)]
pub struct LineCutter {
    bound: usize,
    line: Vec<u8>,
    over: bool,
}

impl Model for LineCutter {
    ghost use Rattle.std.specs.Prelude.{◌≡◌, ◌≤◌, Some, None, length, vec_capacity, if◌then◌else◌};
    ghost use Rattle.pay_text.specs.Cutting.{Begun};

    ghost Value = { Begun };

    ghost view = { λ c. record {
      bound = c.bound;
      line = if c.over then None
          else Some c.line.items;
    } };

    ghost invariant = { λ c. (c.bound ≤ vec_capacity c.line) };
}

impl LineCutter {
    /// Creates a cutter for lines of at most `bound` bytes, with no byte yet. This is the only call
    /// that allocates.
    // promise: lines and words
    pub fn new(alloc: Global, bound: usize) -> Result<LineCutter, AllocError>
        ensures { IfOk result (λ cutter. cutter ≡ record { bound = bound; line = Some [] }) }
    {
        let line = Vec::with_capacity(alloc, bound)?;
        Ok(LineCutter {
            bound,
            line,
            over: false,
        })
    }

    /// Adds `byte` to the line.
    // promise: lines and words
    pub fn push(&mut self, byte: u8)
        ensures { self.new
            ≡ record self.old { line = line_with_byte self.old.bound self.old.line byte } }
    {
        if self.over {
            return;
        }
        if self.line.len() < self.bound {
            self.line.push_reserved(byte);
        } else {
            self.over = true;
        }
    }

    /// Returns the bytes of the line so far, or `None` if they are over the bound.
    // promise: lines and words
    pub fn line(&self) -> Option<&[u8]>
        ensures { option_copied result ≡ self.now.line }
    {
        if self.over {
            return None;
        }
        Some(self.line.as_slice())
    }

    /// Returns whether no byte of the line was pushed.
    // promise: lines and words
    pub fn is_empty(&self) -> bool
        ensures { result ≡ is_nothing self.now.line }
    {
        !self.over && self.line.is_empty()
    }

    /// Begins the next line.
    // promise: lines and words
    pub fn clear(&mut self)
        ensures { self.new ≡ record self.old { line = Some [] } }
    {
        self.line.clear();
        self.over = false;
    }
}
