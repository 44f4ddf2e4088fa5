ghost use Rattle.std.specs.Prelude.{◌≡◌, ◌≢◌, ◌||◌, IfSome, IfNone};
ghost use Rattle.interop_runs.specs.declared.calls.Kind.{Kind as Kinds};
ghost use Rattle.interop_runs.specs.Calls.{called, fresh, is_to_fail, kind_number, kind_word};

/// The kinds of calls of the outside.
#[derive(Clone, Copy)]
pub(crate) enum Kind {
    Bind,
    Send,
    Recv,
    Len,
    Read,
    Write,
    Sync,
    Source,
    Sink,
}

/// The call of a kind with this number, counted from 1.
#[derive(Clone, Copy)]
pub(crate) struct Nth {
    pub(crate) kind: Kind,
    pub(crate) number: u32,
}

impl Kind {
    /// Its number, which no other kind has.
    pub(crate) fn number(self) -> u8
        ensures { result ≡ kind_number self }
    {
        match self {
            Kind::Bind => 0,
            Kind::Send => 1,
            Kind::Recv => 2,
            Kind::Len => 3,
            Kind::Read => 4,
            Kind::Write => 5,
            Kind::Sync => 6,
            Kind::Source => 7,
            Kind::Sink => 8,
        }
    }

    /// The kind that has this name. None exactly where none has.
    pub(crate) fn of(word: &[u8]) -> Option<Kind>
        ensures found { IfSome result (λ kind. word.now ≡ kind_word kind) }
        ensures none { IfNone result ((kind : Kinds) → word.now ≢ kind_word kind) }
    {
        if word == b"bind".as_slice() {
            Some(Kind::Bind)
        } else if word == b"send".as_slice() {
            Some(Kind::Send)
        } else if word == b"recv".as_slice() {
            Some(Kind::Recv)
        } else if word == b"len".as_slice() {
            Some(Kind::Len)
        } else if word == b"read".as_slice() {
            Some(Kind::Read)
        } else if word == b"write".as_slice() {
            Some(Kind::Write)
        } else if word == b"sync".as_slice() {
            Some(Kind::Sync)
        } else if word == b"source".as_slice() {
            Some(Kind::Source)
        } else if word == b"sink".as_slice() {
            Some(Kind::Sink)
        } else {
            None
        }
    }
}

/// The calls of one kind: how many were made, and the numbers of those that are to fail, the first call being number 0.
#[derive(Drop)]
pub(crate) struct Calls {
    pub(crate) made: u64,
    failing: Vec<u64>,
}

/// No call yet.
pub(crate) fn no_calls(failing: Vec<u64>) -> Calls
    ensures { result ≡ fresh failing }
{
    Calls { made: 0, failing }
}

impl Calls {
    /// Counts a call, and says whether it is to fail: each one is where all are.
    pub(crate) fn next_fails(&mut self, all: bool) -> bool
        ensures value { result ≡ (all || is_to_fail self.old) }
        ensures after { self.new ≡ called self.old }
    {
        let fails = all || self.failing.contains(&self.made);
        self.made = self.made.saturating_add(1);
        fails
    }
}
