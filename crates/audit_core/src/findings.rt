//! What an audit found.
ghost use Rattle.std.specs.Prelude.{◌≡◌};
ghost use Rattle.audit_core.specs.Found.{grounds_by};

use accounts::Account;
use findings_json::{Conviction, push_findings};
use rp_base::{NoMemory, Pid, PidSet};
use std::alloc::Global;
use std::marker::Model;
use std::mem;

/// What an audit found of the listed processes. Contracts see it as plain data, which `IsFound` of the specs relates to what the
/// definitions say of the kit, the listed processes and the journals.
pub struct Findings {
    reported: findings_json::Findings,

    // of each listed process, rising, whom the claims handed to it convict
    grounds: Vec<(Pid, PidSet)>,
}

// Written out, so that whoever drops a value makes one call (docs/CONTRIBUTING.md).
impl Drop for Findings {
    fn drop(self) {
        let Findings { reported, grounds } = self;
        mem::drop(reported);
        mem::drop(grounds);
    }
}

impl Model for Findings {
    ghost use Rattle.audit_core.specs.Found.{Found, found_of};

    ghost Value = { Found };

    ghost view = { λ f. found_of f.reported f.grounds.items };
}

// Whom the claims handed to the process convict; nobody where it is not listed.
fn grounds_in(grounds: &[(Pid, PidSet)], p: Pid) -> PidSet
    ensures { result ≡ grounds_by p grounds.now }
{
    for ground in grounds {
        if ground.0 == p {
            return ground.1;
        }
    }
    PidSet::new()
}

impl Findings {
    ghost use Rattle.std.specs.Prelude.{◌≡◌, ◌++◌, Contains, OnErr, OnOk, map};
    ghost use Rattle.accounts.specs.Views.{account};
    ghost use Rattle.audit_defs.specs.Findings.{findings_line};
    ghost use Rattle.findings_json.specs.Views.{reported};
    ghost use Rattle.audit_core.specs.Found.{evidence, found_of, grounds_by, listed_in};

    /// The findings of these parts.
    pub(crate) fn new(reported: findings_json::Findings, grounds: Vec<(Pid, PidSet)>) -> Findings
        ensures { result ≡ found_of reported grounds.items }
    {
        Findings { reported, grounds }
    }

    /// What the listed processes report of themselves, by rising process number.
    pub fn accounts(&self) -> &[Account]
        ensures { map account result.now ≡ self.now.reported.accounts }
    {
        &self.reported.accounts
    }

    /// Whom the claims convict that were handed to the listed processes or are their own words, each by two claims: by rising
    /// process number.
    pub fn convicted(&self) -> &[Conviction]
        ensures reported { map reported result.now ≡ self.now.reported.convicted }
        ensures evidence { map evidence result.now ≡ self.now.evidence }
    {
        &self.reported.convicted
    }

    /// Whether each valid claim of a listed process that was handed to one of them is the signer's own word.
    pub fn honest(&self) -> bool
        ensures { result ≡ self.now.reported.honest }
    {
        self.reported.honest
    }

    /// Whom the claims handed to this process, which is listed, convict. It takes no memory.
    pub fn grounds(&self, p: Pid) -> PidSet
        requires listed { Contains (listed_in self.now) p }
        ensures { result ≡ grounds_by p self.now.grounds }
    {
        grounds_in(&self.grounds, p)
    }

    /// Appends the line of the findings: an object of JSON without blanks, and a line feed (docs/FORMATS.md, «Findings»).
    ///
    /// # Errors
    /// [`NoMemory`]; then `out` is as it was.
    pub fn findings_into(&self, alloc: Global, out: &mut Vec<u8>) -> Result<(), NoMemory>
        ensures pushed { OnOk result (out.new.items ≡ out.old.items ++ findings_line self.now.reported) }
        ensures unchanged { OnErr result (out.new.items ≡ out.old.items) }
    {
        push_findings(out, alloc, &self.reported)
    }
}
