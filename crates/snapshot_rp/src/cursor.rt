//! Fields of an image, one after another. A fault says how many bytes are left where it is.
ghost use Rattle.std.specs.Prelude.{◌≡◌, ◌≤◌, length, IfOk, IsOk};
ghost use Rattle.std.specs.Int.{w8, w16, w32};
ghost use Rattle.byte_defs.specs.Reads.{Gives};
ghost use Rattle.message_defs.specs.Reading.{statement_of};
ghost use Rattle.rp_base.specs.Views.{update, value};
ghost use Rattle.snapshot_defs.specs.Steps as steps;
ghost use Rattle.snapshot_defs.specs.Reading as plain;
ghost use Rattle.snapshot_rp.specs.Claims.{statement_or_end, process_in, updated};

use member_events::{MOST_PLACES, bytes_at, read_statement, u8_at, u16_at, u32_at};
use rp_base::{Pid, Update, Value};

const REMOVE: u8 = 1;

const ADD: u8 = 2;

const RENEW: u8 = 3;

// The number of a process, else this fault.
fn process_by(n: u8, fault: usize) -> Result<Pid, usize>
    ensures { Gives (λ p. p) result (process_in fault n) }
{
    match Pid::new(n) {
        Some(p) => Ok(p),
        None => Err(fault),
    }
}

// By its two bytes, else this fault.
fn update_by(tag: u8, p: u8, fault: usize) -> Result<Update, usize>
    ensures { Gives update result (steps.else_fault fault (updated tag p)) }
{
    match tag {
        REMOVE => Ok(Update::Remove(process_by(p, fault)?)),
        ADD => Ok(Update::Add(process_by(p, fault)?)),
        RENEW if p == 0 => Ok(Update::Renew),
        _ => Err(fault),
    }
}

/// What is left of an image's bytes. A cursor that failed is not read from again.
#[derive(Drop)]
pub(crate) struct Cursor<'a> {
    pub(crate) rest: &'a [u8],
}

impl<'a> Cursor<'a> {
    fn byte(&mut self) -> Result<u8, usize>
        ensures { Gives (λ x. (x, self.new.rest.now)) result (steps.wide_at w8 self.old.rest.now) }
    {
        let (value, rest) = u8_at(self.rest, self.rest.len())?;
        self.rest = rest;
        Ok(value)
    }

    fn short(&mut self) -> Result<u16, usize>
        ensures { Gives (λ x. (x, self.new.rest.now)) result (steps.wide_at w16 self.old.rest.now) }
    {
        let (value, rest) = u16_at(self.rest, self.rest.len())?;
        self.rest = rest;
        Ok(value)
    }

    /// A number of four bytes.
    pub(crate) fn long(&mut self) -> Result<u32, usize>
        ensures { Gives (λ x. (x, self.new.rest.now)) result (steps.wide_at w32 self.old.rest.now) }
    {
        let (value, rest) = u32_at(self.rest, self.rest.len())?;
        self.rest = rest;
        Ok(value)
    }

    fn bytes(&mut self, count: usize) -> Result<&'a [u8], usize>
        ensures value { Gives (λ x. (x.now, self.new.rest.now)) result (steps.field_at count self.old.rest.now) }
        ensures len { IfOk result (λ x. length x.now ≡ count) }
    {
        let (bytes, rest) = bytes_at(self.rest, count, self.rest.len())?;
        self.rest = rest;
        Ok(bytes)
    }

    /// A byte, at most `most`.
    #[tactic(auto, unfolding(snapshot_defs::specs::Steps::number_to))]
    pub(crate) fn byte_to(&mut self, most: u8) -> Result<u8, usize>
        ensures value { Gives (λ x. (x, self.new.rest.now)) result (steps.number_to w8 most self.old.rest.now) }
        ensures most { IfOk result (λ x. x ≤ most) }
    {
        let fault = self.rest.len();
        let n = self.byte()?;
        if n > most {
            return Err(fault);
        }
        Ok(n)
    }

    /// A number of two bytes, at most `most`.
    #[tactic(auto, unfolding(snapshot_defs::specs::Steps::number_to))]
    pub(crate) fn short_to(&mut self, most: u16) -> Result<u16, usize>
        ensures value { Gives (λ x. (x, self.new.rest.now)) result (steps.number_to w16 most self.old.rest.now) }
        ensures most { IfOk result (λ x. x ≤ most) }
    {
        let fault = self.rest.len();
        let n = self.short()?;
        if n > most {
            return Err(fault);
        }
        Ok(n)
    }

    /// The number of a process.
    #[tactic(auto, unfolding(snapshot_defs::specs::Steps::number_to))]
    pub(crate) fn process(&mut self) -> Result<Pid, usize>
        ensures { Gives (λ p. (p, self.new.rest.now)) result (plain.process_at self.old.rest.now) }
    {
        let fault = self.rest.len();
        let n = self.byte()?;
        process_by(n, fault)
    }

    /// Two bytes of length, at most `most`, and that many bytes.
    #[tactic(auto, unfolding(snapshot_defs::specs::Steps::text_to))]
    pub(crate) fn text_to(&mut self, most: u16) -> Result<&'a [u8], usize>
        ensures value { Gives (λ x. (x.now, self.new.rest.now)) result (steps.text_to most self.old.rest.now) }
        ensures most { IfOk result (λ x. length x.now ≤ most) }
    {
        let len = self.short_to(most)?;
        self.bytes(len as usize)
    }

    /// The bytes of a statement, after their length.
    #[tactic(auto, unfolding(snapshot_defs::specs::Reading::statement_at))]
    pub(crate) fn statement(&mut self) -> Result<&'a [u8], usize>
        ensures value { Gives (λ x. (statement_or_end (statement_of x.now), self.new.rest.now)) result (plain.statement_at self.old.rest.now) }
        ensures read { IfOk result (λ x. IsOk (statement_of x.now)) }
    {
        let len = self.short()?;
        let fault = self.rest.len();
        let bytes = self.bytes(len as usize)?;
        if read_statement(bytes).is_err() {
            return Err(fault);
        }
        Ok(bytes)
    }

    /// An update, whose two bytes are one field.
    #[tactic(auto, unfolding(snapshot_defs::specs::Reading::update_at, message_defs::specs::Reading::update_at))]
    pub(crate) fn update(&mut self) -> Result<Update, usize>
        ensures { Gives (λ u. (update u, self.new.rest.now)) result (plain.update_at self.old.rest.now) }
    {
        let fault = self.rest.len();
        let [tag, p, rest @ ..] = self.rest else {
            return Err(fault);
        };
        let update = update_by(*tag, *p, fault)?;
        self.rest = rest;
        Ok(update)
    }

    /// An update and a cut.
    #[tactic(auto, unfolding(snapshot_defs::specs::Reading::value_at))]
    pub(crate) fn value(&mut self) -> Result<Value, usize>
        ensures { Gives (λ v. (value v, self.new.rest.now)) result (plain.value_at self.old.rest.now) }
    {
        let update = self.update()?;
        let cut = self.short_to(MOST_PLACES)?;
        Ok(Value { update, cut })
    }
}
