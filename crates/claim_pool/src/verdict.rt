/// What becomes of a claim: the first of these that holds, in this order. Only `Heard` changes what is heard.
#[derive(Clone, Copy, Debug, PartialEq, Eq)]
pub enum Verdict {
    /// Its view is over.
    Old,

    /// Its view is not installed yet.
    Early,

    /// The signer, or a sender that the statement names, is no member of the view.
    Stranger,

    /// A number or a place is 32 or more ahead of what was delivered, or there is no such rank.
    OutOfWindow,

    /// The signer's heard claim on the slot says the same.
    Known,

    /// The signature is not valid under the signer's key in the roster, or the roster has no key of it.
    Unsigned,

    /// The signer's heard claim on the slot says something else. That one stays.
    Conflict,

    /// None of the others: it is heard now.
    Heard,
}
