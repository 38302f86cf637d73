//! Why a bundle of profiles whose names fold can't be answered.
use hub_folded::FoldFault;
use hub_import::BundleUnwritten;
use hub_path::Root;
use std::alloc::AllocError;
use thiserror::Error;

/// Why nothing stands in the place of a bundle (this project's choice).
#[derive(Debug, Drop, Error)]
pub enum RespellFault {
    /// It isn't known what the rule with this number, from 0 on, folds to, or it wouldn't hold for each spelling of a path: it has an
    /// unknown character, a `?`, or a set with other than ASCII characters.
    #[error("UnknownRule {0}")]
    UnknownRule(usize),
    /// The first of these roots is over the second one where names fold, or is the same folder, but isn't as they are spelled: as
    /// `/srv/Hub` and `/srv/hub`.
    #[error("SpelledTwice")]
    SpelledTwice {
        /// The upper root.
        first: Root,
        /// The other root.
        second: Root,
    },
    /// No bundle says the folded profiles and rules: as if a pattern has more characters than there may be.
    #[error("NotReadBack")]
    Unwritten,
    /// Memory is out.
    #[error("OutOfMemory")]
    OutOfMemory,
}

impl From<AllocError> for RespellFault {
    ghost use Rattle.hub_respelled.specs.declared.fault.RespellFault.TheVariants.{OutOfMemory};
    ghost use Rattle.std.specs.Prelude.{◌≡◌};

    ghost from_gives = { λ _ e. e ≡ OutOfMemory };

    fn from(_: AllocError) -> Self {
        RespellFault::OutOfMemory
    }
}

impl From<BundleUnwritten> for RespellFault {
    ghost use Rattle.hub_respelled.specs.Respelled.{like_unwritten};
    ghost use Rattle.std.specs.Prelude.{◌≡◌};

    ghost from_gives = { λ f e. e ≡ like_unwritten f };

    fn from(fault: BundleUnwritten) -> Self {
        match fault {
            BundleUnwritten::NotReadBack => RespellFault::Unwritten,
            BundleUnwritten::OutOfMemory => RespellFault::OutOfMemory,
        }
    }
}

impl From<FoldFault> for RespellFault {
    ghost use Rattle.hub_respelled.specs.Respelled.{like_fold};
    ghost use Rattle.std.specs.Prelude.{◌≡◌};

    ghost from_gives = { λ f e. e ≡ like_fold f };

    fn from(fault: FoldFault) -> Self {
        match fault {
            FoldFault::UnknownRule(number) => RespellFault::UnknownRule(number),
            FoldFault::UnwrittenRules => RespellFault::Unwritten,
            FoldFault::OutOfMemory => RespellFault::OutOfMemory,
        }
    }
}
