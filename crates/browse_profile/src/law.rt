// The law of profiles.
ghost use Rattle.browse_profile.specs.Sound.{ProfilesAreSound};

/// A profile that is made of others describes each list that is made so of what those describe: one list after another, either of
/// two, any number, and one each stop of which is replaced by a list. What a profile says of a list: docs/MEANING.md.
pub fn profiles_are_sound()
    ensures { ProfilesAreSound }
{}
