//! The commands and the keys of their words.

ghost use Rattle.std.specs.Prelude.{◌≡◌, ◌≢◌, ◌↔◌, IsTrue, IfSome, IfNone};
ghost use Rattle.std.specs.List.{Contains};
ghost use Rattle.query_words.specs.declared.commands.Command.{Command};
ghost use Rattle.query_words.specs.declared.commands.Key.{Key};
ghost use Rattle.query_words.specs.Commands.{name_of, required, optional, keys_of, key_text};

/// What a query is to do: the first word.
#[derive(Clone, Copy, Debug, PartialEq, Eq)]
pub enum Command {
    Next,
    Previous,
    Current,
    Closest,
    Contains,
    Walk,
    Resume,
    Min,
    Max,
    Empty,
    Count,
    Duration,
    Audit,
    ContainsSet,
    Intersects,
    Intersected,
    Show,
    Load,
}

/// What a later word `key=value` sets.
#[derive(Clone, Copy, Debug, PartialEq, Eq)]
pub enum Key {
    At,
    From,
    To,
    Dir,
    Limit,
    Budget,
    Token,
    Seed,
}

/// Whether the key is one of these.
fn holds(keys: &[Key], key: Key) -> bool
    ensures { IsTrue result ↔ Contains keys.now key }
{
    keys.contains(&key)
}

impl Command {
    /// The command of this name, or None where no command has it.
    pub fn named(name: &str) -> Option<Command>
        ensures some { IfSome result (λ command. name.now ≡ name_of command) }
        ensures none { IfNone result ((command : Command) → name.now ≢ name_of command) }
    {
        match name {
            "next" => Some(Command::Next),
            "previous" => Some(Command::Previous),
            "current" => Some(Command::Current),
            "closest" => Some(Command::Closest),
            "contains" => Some(Command::Contains),
            "walk" => Some(Command::Walk),
            "resume" => Some(Command::Resume),
            "min" => Some(Command::Min),
            "max" => Some(Command::Max),
            "empty" => Some(Command::Empty),
            "count" => Some(Command::Count),
            "duration" => Some(Command::Duration),
            "audit" => Some(Command::Audit),
            "contains_set" => Some(Command::ContainsSet),
            "intersects" => Some(Command::Intersects),
            "intersected" => Some(Command::Intersected),
            "show" => Some(Command::Show),
            "load" => Some(Command::Load),
            _ => None,
        }
    }

    /// The keys that must stand behind the command.
    pub fn required(self) -> &'static [Key]
        ensures { result.now ≡ required self }
    {
        match self {
            Command::Next
            | Command::Previous
            | Command::Current
            | Command::Closest
            | Command::Contains => &[Key::At],
            Command::Resume => &[Key::Token],
            Command::Audit => &[Key::From, Key::To],
            Command::Load => &[Key::Seed],
            _ => &[],
        }
    }

    /// The keys that may stand there besides.
    pub fn optional(self) -> &'static [Key]
        ensures { result.now ≡ optional self }
    {
        match self {
            Command::Walk => &[Key::From, Key::To, Key::Dir, Key::Limit, Key::Budget],
            Command::Resume => &[Key::Limit, Key::Budget],
            Command::Count | Command::Duration => &[Key::From, Key::To, Key::Budget],
            Command::Intersected => &[Key::From, Key::To, Key::Limit, Key::Budget],
            Command::Show | Command::Load => &[],
            _ => &[Key::Budget],
        }
    }

    /// Whether a word of the key may stand behind the command.
    pub fn takes(self, key: Key) -> bool
        ensures { IsTrue result ↔ Contains (keys_of self) key }
    {
        holds(self.required(), key) || holds(self.optional(), key)
    }
}

impl Key {
    /// The key that is spelled so, or None where no key is.
    pub fn named(text: &str) -> Option<Key>
        ensures some { IfSome result (λ key. text.now ≡ key_text key) }
        ensures none { IfNone result ((key : Key) → text.now ≢ key_text key) }
    {
        match text {
            "at" => Some(Key::At),
            "from" => Some(Key::From),
            "to" => Some(Key::To),
            "dir" => Some(Key::Dir),
            "limit" => Some(Key::Limit),
            "budget" => Some(Key::Budget),
            "token" => Some(Key::Token),
            "seed" => Some(Key::Seed),
            _ => None,
        }
    }
}
