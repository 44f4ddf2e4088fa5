ghost use Rattle.std.specs.Prelude.{◌<◌, length};

use crate::header::{hosted_in, is_of, version_in};
use crate::steps::Steps;
use journal_defs::Version;
use kit_file::Kit;
use rp_base::PidSet;

/// How many bytes are before the first gate.
const HEAD_BYTES: usize = 60;

/// A journal whose header is of a kit. It borrows the journal's bytes.
#[derive(Clone, Copy)]
pub struct Source<'a> {
    version: Version,
    hosted: PidSet,
    bytes: &'a [u8],
    pub ghost gated: { 60 < length bytes.now },
}

impl<'a> Source<'a> {
    ghost use Rattle.std.specs.Prelude.{◌≡◌, ℕ, option_map};
    ghost use Rattle.audit_defs.specs.Sources.{source_of, steps_in};
    ghost use Rattle.journal_steps.specs.Views.{source, steps_left};

    /// The journal, where its header is of the kit: its letters are those of a journal, its group and its digest are the kit's, it
    /// hosts processes of the kit's roster alone, and it has a first gate. None, exactly where it is not so.
    #[tactic(auto, unfolding(audit_defs::specs::Sources::source_of))]
    pub fn read(kit: &Kit, journal: &'a [u8]) -> Option<Source<'a>>
        ensures { option_map source result ≡ source_of kit.now journal.now }
    {
        if journal.len() <= HEAD_BYTES {
            return None;
        }
        let group = kit.group();
        let digest = kit.digest();
        if !is_of(&group, kit.roster(), &digest, journal) {
            return None;
        }
        let version = version_in(journal)?;
        Some(Source {
            version,
            hosted: hosted_in(journal),
            bytes: journal,
        })
    }

    /// The kind of the journal.
    pub fn version(&self) -> Version
        ensures { result ≡ (source self.now).version }
    {
        self.version
    }

    /// The processes that the journal hosts.
    pub fn hosted(&self) -> PidSet
        ensures { result ≡ (source self.now).hosted }
    {
        self.hosted
    }

    /// What is at its gates, from the first one on.
    pub fn steps(&self) -> Steps<'a>
        ensures { (j : ℕ) → steps_left j result ≡ steps_in (j, source self.now) }
    {
        Steps::new(self.bytes)
    }
}
