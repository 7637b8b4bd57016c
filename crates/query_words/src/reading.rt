//! The words read whole.

ghost use Rattle.std.specs.Prelude.{◌<◌, ◌+◌, ◌^◌, ◌∷◌, map, length};
ghost use Rattle.std.specs.String.{string_bytes};
ghost use Rattle.query_words.specs.declared.commands.Command.TheVariants.{Resume, Show, Walk};
ghost use Rattle.query_words.specs.Commands.{name_of};
ghost use Rattle.query_words.specs.Neighbours.{command_of};
ghost use Rattle.query_words.specs.Words.{AreRead};

use crate::commands::{Command, Key};
use crate::queries::{Neighbour, Query, WordsFault};
use crate::settings::read_settings;

/// The query that the words behind the command of a neighbour ask.
fn read_near(side: Neighbour, later: &[String]) -> Result<Query, WordsFault>
    requires { length later.now + 1 < 2 ^ 64 }
    ensures { AreRead (name_of (command_of side) ∷ map string_bytes later.now) result }
{
    let settings = read_settings(side.command(), later)?;
    let Some(at) = settings.stamp(Key::At) else {
        return Err(WordsFault::Bad(later.len() + 1));
    };
    Ok(Query::Near {
        side,
        at,
        budget: settings.budget(),
    })
}

/// The query that the words behind `walk` ask.
fn read_walk(later: &[String]) -> Result<Query, WordsFault>
    requires { length later.now + 1 < 2 ^ 64 }
    ensures { AreRead (name_of Walk ∷ map string_bytes later.now) result }
{
    let settings = read_settings(Command::Walk, later)?;
    Ok(Query::Walk {
        from: settings.stamp(Key::From),
        to: settings.stamp(Key::To),
        dir: settings.dir(),
        limit: settings.limit(),
        budget: settings.budget(),
    })
}

/// The query that the words behind `resume` ask.
fn read_resume(later: &[String]) -> Result<Query, WordsFault>
    requires { length later.now + 1 < 2 ^ 64 }
    ensures { AreRead (name_of Resume ∷ map string_bytes later.now) result }
{
    let settings = read_settings(Command::Resume, later)?;
    let Some(token) = settings.token() else {
        return Err(WordsFault::Bad(later.len() + 1));
    };
    Ok(Query::Resume {
        token,
        limit: settings.limit(),
        budget: settings.budget(),
    })
}

/// The query that the words behind `show` ask.
fn read_show(later: &[String]) -> Result<Query, WordsFault>
    requires { length later.now + 1 < 2 ^ 64 }
    ensures { AreRead (name_of Show ∷ map string_bytes later.now) result }
{
    read_settings(Command::Show, later)?;
    Ok(Query::Show)
}

/// The query that the words of the command line ask, or their fault.
///
/// The first word is the command and each later one `key=value`, with a key of the command, each at
/// most once. `at`, `from` and `to` are literals of moments of the calendar range, absolute or
/// floating, `from` and `to` on one clock and in order. `dir` is `fore` or `back`, and `fore`
/// without it. `limit` and `budget` are decimal digits without a sign, of 1 to [`MAX_LIMIT`] and
/// of 1 to [`MAX_BUDGET`]; without them they are [`DEFAULT_LIMIT`] and [`DEFAULT_BUDGET`]. `token`
/// is the text of a token from which a walk can go on.
///
/// `Unbuilt` comes exactly where the first word is a command that isn't answered yet, whatever
/// follows. `Bad` tells the number of the first bad word, from 0; where no word is bad and the
/// command or a required key is missing, it is the number of words.
///
/// [`MAX_LIMIT`]: crate::MAX_LIMIT
/// [`MAX_BUDGET`]: crate::MAX_BUDGET
/// [`DEFAULT_LIMIT`]: crate::DEFAULT_LIMIT
/// [`DEFAULT_BUDGET`]: crate::DEFAULT_BUDGET
pub fn read_words(words: &[String]) -> Result<Query, WordsFault>
    ensures { AreRead (map string_bytes words.now) result }
{
    let Some((first, later)) = words.split_first() else {
        return Err(WordsFault::Bad(0));
    };
    let Some(command) = Command::named(first.as_str()) else {
        return Err(WordsFault::Bad(0));
    };
    if let Some(side) = Neighbour::asked_by(command) {
        return read_near(side, later);
    }
    match command {
        Command::Walk => read_walk(later),
        Command::Resume => read_resume(later),
        Command::Show => read_show(later),
        _ => Err(WordsFault::Unbuilt),
    }
}
