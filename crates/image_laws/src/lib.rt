//! Laws of images. Each is the contract of a function with an empty body.
#![tactic(auto)]

ghost use Rattle.image_defs.specs.Images.{ProcessIsRestored};
ghost use Rattle.image_laws.specs.Alike.{ImagesAreSame, InOrderIsAlike, PairsAreFound, RestoredIsAlike, RunsAreAlike, RunsPairOnce, TurnsAreAlike};
ghost use Rattle.image_laws.specs.Made.{ImagesAreKept, RunsFit};
ghost use Rattle.image_laws.specs.Keeping.{AcceptedIsKept, DecisionIsKept, HeardIsKept, LeftIsKept, PerceivedIsKept, PlacedIsKept, SignedIsKept};

/// The image of a process gives it back, with its conflicts by rising signer.
pub fn process_is_restored()
    ensures { ProcessIsRestored }
{}

/// Each event keeps how the views were left fit for an image, where the signatures that it makes are valid.
pub fn left_is_kept()
    ensures { LeftIsKept }
{}

/// Each event keeps what is heard fit for an image, where the signatures that it makes are valid.
pub fn heard_is_kept()
    ensures { HeardIsKept }
{}

/// Each event keeps what is signed fit for an image, where the signatures that it makes are valid.
pub fn signed_is_kept()
    ensures { SignedIsKept }
{}

/// Each event keeps what is delivered fit for an image, where what is handed over is in range.
pub fn placed_is_kept()
    ensures { PlacedIsKept }
{}

/// Each event keeps what is decided fit for an image, and whether the process has halted.
pub fn decision_is_kept()
    ensures { DecisionIsKept }
{}

/// Each event keeps what is accepted fit for an image.
pub fn accepted_is_kept()
    ensures { AcceptedIsKept }
{}

/// Each event keeps what is perceived fit for an image.
pub fn perceived_is_kept()
    ensures { PerceivedIsKept }
{}

/// A run of a process that fits an image leaves one that does, where its signatures are valid and what is handed over is in range.
pub fn runs_fit()
    ensures { RunsFit }
{}

/// The image of a process that began in a genesis view is kept, where its signatures are valid and what was handed over is in range.
pub fn images_are_kept()
    ensures { ImagesAreKept }
{}

/// A process that a run makes has one pair of conflicting claims of each signer that lied.
pub fn runs_pair_once()
    ensures { RunsPairOnce }
{}

/// Such a process is alike with its conflicts by rising signer.
pub fn in_order_is_alike()
    ensures { InOrderIsAlike }
{}

/// The image of a process gives back one that is alike.
pub fn restored_is_alike()
    ensures { RestoredIsAlike }
{}

/// A turn has one outcome for processes that are alike, and leaves them alike.
pub fn turns_are_alike()
    ensures { TurnsAreAlike }
{}

/// So have any number of turns.
pub fn runs_are_alike()
    ensures { RunsAreAlike }
{}

/// Processes that are alike have one image.
pub fn images_are_same()
    ensures { ImagesAreSame }
{}

/// A signer has the same pair in processes that are alike.
pub fn pairs_are_found()
    ensures { PairsAreFound }
{}
