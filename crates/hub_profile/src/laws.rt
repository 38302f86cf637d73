//! What holds of every reading: each law is the contract of a function that does nothing.

ghost use Rattle.std.specs.Prelude.{◌≡◌, ℕ, List, Ok};
ghost use Rattle.hub_path.specs.Path.{Name};
ghost use Rattle.hub_profile.specs.Parts.{Parts, IsProfile};
ghost use Rattle.hub_profile.specs.Reading.{profile_in};

/// What bytes are read as is a profile: its two roots are apart, and so are its kept values.
pub fn readings_are_profiles()
    ensures { (n : Name) (bytes : List ℕ) (P : Parts) → profile_in n bytes ≡ Ok P → IsProfile P }
{}
