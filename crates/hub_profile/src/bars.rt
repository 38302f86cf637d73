use hub_text::Exact;

/// The changes that a profile doesn't make at one of its roots (Unison manual, "Preferences").
#[derive(Clone, Copy, Debug, PartialEq, Eq)]
pub struct Bars {
    /// Nothing is created (`nocreation`).
    pub create: bool,
    /// Nothing is updated (`noupdate`).
    pub update: bool,
    /// Nothing is deleted (`nodeletion`, and `noupdate`).
    pub delete: bool,
}

impl Exact for Bars {
    ghost use Rattle.hub_profile.specs.laws.Exact.{bars_exact};

    ghost exact = { bars_exact };
}
