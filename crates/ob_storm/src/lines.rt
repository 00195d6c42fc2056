//! What is printed of a storm.
ghost use Rattle.std.specs.Prelude.{◌≡◌, ◌++◌, IfOk};
ghost use Rattle.ob_storm.specs.Lines.{line, lines};

use crate::totals::Totals;
use std::alloc::{AllocError, Global};

// Puts a name, a space and a number on a line of their own last.
fn put_line(alloc: Global, text: &mut Vec<u8>, name: &str, number: u64) -> Result<(), AllocError>
    ensures { IfOk result (λ _. text.new.items ≡ text.old.items ++ line name.now number) }
{
    let digits = format!(in alloc; "{number}")?;
    text.extend_from_slice(name.as_bytes())?;
    text.extend_from_slice(b" ")?;
    text.extend_from_slice(digits.as_bytes())?;
    text.extend_from_slice(b"\n")?;
    Ok(())
}

impl Totals {
    /// Six lines, each of a name, a space and a number.
    pub fn lines(&self, alloc: Global) -> Result<Vec<u8>, AllocError>
        ensures { IfOk result (λ text. text.items ≡ lines self.now) }
    {
        let mut text = Vec::new(alloc);
        put_line(alloc, &mut text, "requests", self.requests)?;
        put_line(alloc, &mut text, "errs", self.errs)?;
        put_line(alloc, &mut text, "objects", self.objects)?;
        put_line(alloc, &mut text, "events", self.events)?;
        put_line(alloc, &mut text, "records", self.records)?;
        put_line(alloc, &mut text, "alarms", self.alarms)?;
        Ok(text)
    }
}
