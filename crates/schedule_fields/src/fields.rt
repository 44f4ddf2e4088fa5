//! Fields of a schedule, one after another. A fault is given by how many bytes are left where it is.
ghost use Rattle.std.specs.Prelude.{◌≡◌, ◌≤◌, length, nat_le, IfOk};
ghost use Rattle.std.specs.Int.{w16, w32, w64};
ghost use Rattle.byte_defs.specs.Reads.{Gives};
ghost use Rattle.byte_defs.specs.Members.{has};
ghost use Rattle.rp_base.specs.Pids.{mask_of};
ghost use Rattle.replay_defs.specs.Keys.{is_from};
ghost use Rattle.replay_defs.specs.Reading as plain;
ghost use Rattle.replay_defs.specs.declared.FaultKind.TheVariants as kinds;

use replay_defs::{FaultKind, Found};
use rp_base::{Pid, PidSet};

// The processes of a mask, whose mask is this one.
fn set_of(mask: u64) -> PidSet
    ensures { mask_of result ≡ mask }
{
    PidSet::from_mask(mask)
}

/// What is left of an input. A reader that has failed is not read from again.
#[derive(Drop)]
pub struct Reader<'a> {
    pub rest: &'a [u8],
}

impl<'a> Reader<'a> {
    /// This fault, of the field that comes next.
    pub fn fault(&self, kind: FaultKind) -> Found
        ensures { result ≡ plain.fault_at kind self.now.rest.now }
    {
        Found {
            kind,
            left: self.rest.len(),
        }
    }

    pub fn byte(&mut self) -> Result<u8, Found>
        ensures { Gives (λ x. (x, self.new.rest.now)) result (plain.byte_at self.old.rest.now) }
    {
        let (value, rest) = byte_fields::u8_at(self.rest, self.fault(FaultKind::Short))?;
        self.rest = rest;
        Ok(value)
    }

    pub fn short(&mut self) -> Result<u16, Found>
        ensures { Gives (λ x. (x, self.new.rest.now)) result (plain.wide_at w16 self.old.rest.now) }
    {
        let (value, rest) = byte_fields::u16_at(self.rest, self.fault(FaultKind::Short))?;
        self.rest = rest;
        Ok(value)
    }

    pub fn long(&mut self) -> Result<u32, Found>
        ensures { Gives (λ x. (x, self.new.rest.now)) result (plain.wide_at w32 self.old.rest.now) }
    {
        let (value, rest) = byte_fields::u32_at(self.rest, self.fault(FaultKind::Short))?;
        self.rest = rest;
        Ok(value)
    }

    pub fn mask(&mut self) -> Result<u64, Found>
        ensures { Gives (λ x. (x, self.new.rest.now)) result (plain.wide_at w64 self.old.rest.now) }
    {
        let (value, rest) = byte_fields::u64_at(self.rest, self.fault(FaultKind::Short))?;
        self.rest = rest;
        Ok(value)
    }

    /// The processes of a mask.
    pub fn processes(&mut self) -> Result<PidSet, Found>
        ensures { Gives (λ ps. (mask_of ps, self.new.rest.now)) result (plain.wide_at w64 self.old.rest.now) }
    {
        let mask = self.mask()?;
        Ok(set_of(mask))
    }

    pub fn bytes(&mut self, count: usize) -> Result<&'a [u8], Found>
        ensures value { Gives (λ x. (x.now, self.new.rest.now)) result (plain.field_at count self.old.rest.now) }
        ensures len { IfOk result (λ x. length x.now ≡ count) }
    {
        let (bytes, rest) = byte_fields::bytes_at(self.rest, count, self.fault(FaultKind::Short))?;
        self.rest = rest;
        Ok(bytes)
    }

    /// A byte from the least to the most, else this fault.
    #[tactic(auto, unfolding(replay_defs::specs::Reading::byte_that))]
    pub fn byte_from(&mut self, least: u8, most: u8, kind: FaultKind) -> Result<u8, Found>
        ensures value { Gives (λ x. (x, self.new.rest.now)) result (plain.byte_that (is_from least most) kind self.old.rest.now) }
        ensures range { IfOk result (λ x. (least ≤ x) × (x ≤ most)) }
    {
        let fault = self.fault(kind);
        let b = self.byte()?;
        if b < least || b > most {
            return Err(fault);
        }
        Ok(b)
    }

    /// The number of a process of this set, else this fault.
    #[tactic(auto, unfolding(replay_defs::specs::Reading::byte_that, replay_defs::specs::Reading::process_that))]
    pub fn process_in(&mut self, among: PidSet, kind: FaultKind) -> Result<Pid, Found>
        ensures { Gives (λ p. (p, self.new.rest.now)) result (plain.process_that (has among) kind self.old.rest.now) }
    {
        let fault = self.fault(kind);
        let n = self.byte()?;
        match Pid::new(n) {
            Some(p) if among.contains(p) => Ok(p),
            _ => Err(fault),
        }
    }

    /// The number of a process, the least or a higher one, else this fault.
    #[tactic(auto, unfolding(replay_defs::specs::Reading::byte_that, replay_defs::specs::Reading::process_that))]
    pub fn process_from(&mut self, least: u8, kind: FaultKind) -> Result<Pid, Found>
        ensures { Gives (λ p. (p, self.new.rest.now)) result (plain.process_that (nat_le least) kind self.old.rest.now) }
    {
        let fault = self.fault(kind);
        let n = self.byte()?;
        match Pid::new(n) {
            Some(p) if n >= least => Ok(p),
            _ => Err(fault),
        }
    }

    /// The number of any process.
    #[tactic(auto, unfolding(replay_defs::specs::Reading::byte_that, replay_defs::specs::Reading::other_at))]
    pub fn process(&mut self) -> Result<Pid, Found>
        ensures { Gives (λ p. (p, self.new.rest.now)) result (plain.other_at self.old.rest.now) }
    {
        let fault = self.fault(FaultKind::Field);
        let n = self.byte()?;
        match Pid::new(n) {
            Some(p) => Ok(p),
            None => Err(fault),
        }
    }

    /// Two bytes of length, and that many bytes.
    #[tactic(auto, unfolding(replay_defs::specs::Reading::text_at))]
    pub fn text(&mut self, most: u16) -> Result<&'a [u8], Found>
        ensures { Gives (λ x. (x.now, self.new.rest.now)) result (plain.text_at most self.old.rest.now) }
    {
        let fault = self.fault(FaultKind::Field);
        let len = self.short()?;
        if len > most {
            return Err(fault);
        }
        self.bytes(len as usize)
    }
}
