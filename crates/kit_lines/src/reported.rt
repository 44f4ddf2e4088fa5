ghost use Rattle.std.specs.Prelude.{◌≡◌};
ghost use Rattle.sig_scheme.specs.Views as views;
ghost use Rattle.kit_defs.specs.KitReading as plain;
ghost use Rattle.kit_lines.specs.LineViews.{may, version};

use sig_scheme::AnyScheme;

/// The versions of the format, by their numbers.
#[derive(Clone, Copy, PartialEq, Eq)]
pub enum Version {
    /// Kits of plain and of LMS keys.
    One,

    /// Kits of HSS keys.
    Two,
}

/// What the lines so far say of the scheme.
#[derive(Clone, Copy)]
pub struct Reported {
    pub version: Option<Version>,
    pub scheme: Option<AnyScheme>,
}

// Whether kits of the scheme are spelled in the version.
fn is_of(of: Version, scheme: AnyScheme) -> bool
    ensures { result ≡ plain.is_of (version of) (views.scheme scheme) }
{
    match of {
        Version::One => match scheme {
            AnyScheme::Plain | AnyScheme::Lms => true,
            AnyScheme::Hss => false,
        },
        Version::Two => match scheme {
            AnyScheme::Plain | AnyScheme::Lms => false,
            AnyScheme::Hss => true,
        },
    }
}

fn is_scheme(reported: AnyScheme, scheme: AnyScheme) -> bool
    ensures { result ≡ plain.is_scheme (views.scheme reported) (views.scheme scheme) }
{
    match reported {
        AnyScheme::Plain => matches!(scheme, AnyScheme::Plain),
        AnyScheme::Lms => matches!(scheme, AnyScheme::Lms),
        AnyScheme::Hss => matches!(scheme, AnyScheme::Hss),
    }
}

impl Reported {
    /// Whether the kit may be of a scheme: it is the one that was given; else one of the version that was given; else
    /// any.
    pub fn may_be(self, scheme: AnyScheme) -> bool
        ensures { result ≡ may self (views.scheme scheme) }
    {
        match self.scheme {
            Some(reported) => is_scheme(reported, scheme),
            None => match self.version {
                Some(version) => is_of(version, scheme),
                None => true,
            },
        }
    }
}
