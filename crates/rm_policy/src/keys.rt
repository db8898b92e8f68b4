// The keys of a policy.

ghost use Rattle.std.specs.Prelude.{◌≡◌};
ghost use Rattle.rm_policy.specs.Keys.{key_text, key_number};

/// A key of a policy: of the top down to `Hospital`, and of entries from `Name` on.
#[derive(Clone, Copy, Debug, PartialEq, Eq)]
pub enum Key {
    Version,
    Kind,
    Ties,
    Listed,
    Prefecture,
    Group,
    Hospital,
    Name,
    Cap,
    Order,
    Steps,
    Hospitals,
    Prefectures,
    Groups,
}

impl Key {
    /// The key as the policy writes it.
    pub fn text(self) -> &'static str
        ensures { result.now ≡ key_text self }
    {
        match self {
            Key::Version => "version",
            Key::Kind => "kind",
            Key::Ties => "ties",
            Key::Listed => "listed",
            Key::Prefecture => "prefecture",
            Key::Group => "group",
            Key::Hospital => "hospital",
            Key::Name => "name",
            Key::Cap => "cap",
            Key::Order => "order",
            Key::Steps => "steps",
            Key::Hospitals => "hospitals",
            Key::Prefectures => "prefectures",
            Key::Groups => "groups",
        }
    }

    /// The number of the key, of which refusals speak.
    pub fn number(self) -> u64
        ensures { result ≡ key_number self }
    {
        match self {
            Key::Version => 1,
            Key::Kind => 2,
            Key::Ties => 3,
            Key::Listed => 4,
            Key::Prefecture => 5,
            Key::Group => 6,
            Key::Hospital => 7,
            Key::Name => 8,
            Key::Cap => 9,
            Key::Order => 10,
            Key::Steps => 11,
            Key::Hospitals => 12,
            Key::Prefectures => 13,
            Key::Groups => 14,
        }
    }
}
