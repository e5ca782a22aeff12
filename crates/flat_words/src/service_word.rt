ghost use Rattle.flat_words.specs.declared.service_word.ServiceWord.{ServiceWord};
ghost use Rattle.flat_base.specs.declared.limits.TheConstants.{LOAD_FRAMES_MAX};
ghost use Rattle.std.specs.Prelude.{◌≡◌, ℕ, ◌≤◌, [], codes, map, Some, IfOk, IfSome, IsSomeAnd, IsTrue, is_some};
ghost use Rattle.std.specs.List.{list_any};
ghost use Rattle.std.specs.String.{string_bytes};
ghost use Rattle.std.specs.Fmt.{decimal};
ghost use Rattle.clap.specs.Simple.{on_top};
ghost use Rattle.clap.specs.Words.{app_of, fault_of, new_app, subcommand_of, subcommand_rows_of, with_rule};
ghost use Rattle.clap.specs.Words.{with_subcommand};
ghost use Rattle.flat_words.specs.Forms.{CallFor};
ghost use Rattle.flat_words.specs.Command.{is_option, IsNamed, asking, frames, service};

use clap::error::ErrorKind;
use clap::{Arg, ArgMatches, Command};
use flat_base::{LOAD_FRAMES_MAX, NoMemory};
use flat_text::read_natural;
use std::alloc::Global;

/// What the service is called for.
#[derive(Clone, Copy, Debug, PartialEq, Eq)]
pub enum ServiceWord {
    /// A script that is played on one thread.
    Play,
    /// A script whose actors run at once.
    Race,
    /// The built-in load of so many frames.
    Stress(u32),
    /// The picture of a played script's last frame.
    Render,
    /// What changed from frame to frame of a played script.
    Damage,
    /// Who had the focus while a script was played.
    Focus,
    /// To which sessions the pointers' lines went while a script was played.
    Pointer,
    /// Whether a report is that of a run of the script before it.
    Judge,
    /// Why the sessions of a played script were on the display, or not.
    Why,
    /// The pictures of all frames of a played script.
    Film,
}

/// The form for which the words call: None if they call for none. Fails
/// only if memory runs out.
pub fn read(alloc: Global, words: &[String]) -> Result<Option<ServiceWord>, NoMemory>
    ensures form { IfOk result (λ found. IfSome found (λ form. CallFor (map string_bytes words.now)
        form)) }
    ensures only { (form : ServiceWord) → CallFor (map string_bytes words.now) form →
        IfOk result (λ found. found ≡ Some form) }
{
    if has_option(words) {
        return Ok(None);
    }
    let Some(matches) = parse(alloc, words)? else {
        return Ok(None);
    };
    Ok(named_form(&matches))
}

// Whether a word begins with a hyphen. Such words are no part of a call: there is
// no option, no help and no version.
fn has_option(words: &[String]) -> bool
    ensures { result ≡ list_any (λ word. is_option (string_bytes word)) words.now }
{
    words.iter().any(|word| word.as_str().starts_with('-'))
}

// The command with one form more, which is a word alone.
fn with_form<'a>(
    alloc: Global,
    command: Command<'a>,
    name: &'a str,
) -> Result<Command<'a>, NoMemory>
    ensures { IfOk result (λ more. app_of more
        ≡ with_subcommand (app_of command.entry) (new_app name.entry.now).top) }
{
    match command.subcommand(Command::new(alloc, name)) {
        Ok(more) => Ok(more),
        Err(_) => Err(NoMemory),
    }
}

// The command with two forms more, each a word alone.
fn with_two<'a>(
    alloc: Global,
    command: Command<'a>,
    first: &'a str,
    second: &'a str,
) -> Result<Command<'a>, NoMemory>
    ensures { IfOk result (λ more. app_of more ≡ with_subcommand (with_subcommand
        (app_of command.entry) (new_app first.entry.now).top) (new_app second.entry.now).top) }
{
    let Ok(command) = with_form(alloc, command, first) else {
        return Err(NoMemory);
    };
    with_form(alloc, command, second)
}

// The command with the form of a load, which has the number of its frames behind its
// word.
fn with_load<'a>(alloc: Global, command: Command<'a>) -> Result<Command<'a>, NoMemory>
    ensures { IfOk result (λ more. app_of more
        ≡ with_subcommand (app_of command.entry) (with_rule (new_app (codes "stress"))
        frames).top) }
{
    let frames = Arg::new(alloc, "frames").required(true);
    let Ok(stress) = Command::new(alloc, "stress").arg(frames) else {
        drop(command);
        return Err(NoMemory);
    };
    match command.subcommand(stress) {
        Ok(more) => Ok(more),
        Err(_) => Err(NoMemory),
    }
}

// The command without its forms.
fn bare<'a>(alloc: Global) -> Command<'a>
    ensures { app_of result ≡ on_top asking (new_app (codes "flatland")) }
{
    Command::new(alloc, "flatland")
        .no_binary_name(true)
        .disable_help_flag(true)
        .disable_help_subcommand(true)
        .disable_version_flag(true)
        .subcommand_required(true)
}

// The command, whose subcommands are the forms.
fn service<'a>(alloc: Global) -> Result<Command<'a>, NoMemory>
    ensures { IfOk result (λ command. app_of command ≡ service) }
{
    let Ok(command) = with_two(alloc, bare(alloc), "play", "race") else {
        return Err(NoMemory);
    };
    let Ok(command) = with_load(alloc, command) else {
        return Err(NoMemory);
    };
    let Ok(command) = with_two(alloc, command, "render", "damage") else {
        return Err(NoMemory);
    };
    let Ok(command) = with_two(alloc, command, "focus", "pointer") else {
        return Err(NoMemory);
    };
    let Ok(command) = with_two(alloc, command, "judge", "why") else {
        return Err(NoMemory);
    };
    with_form(alloc, command, "film")
}

// What the words give the command, or None where it refuses them.
fn parse<'a>(alloc: Global, words: &'a [String]) -> Result<Option<ArgMatches<'a>>, NoMemory>
    ensures matches { IfOk result (λ found. IfSome found (λ matches. subcommand_rows_of matches
        ≡ subcommand_of service (map string_bytes words.entry.now))) }
    ensures taken { IfOk result (λ found. IfSome found
        (λ matches. fault_of service (map string_bytes words.entry.now) ≡ [])) }
    ensures none { fault_of service (map string_bytes words.entry.now) ≡ [] →
        IfOk result (λ found. IsTrue (is_some found)) }
{
    match service(alloc)?.try_get_matches_from(words) {
        Ok(matches) => Ok(Some(matches)),
        Err(error) => {
            if error.kind() == ErrorKind::OutOfMemory {
                Err(NoMemory)
            } else {
                Ok(None)
            }
        }
    }
}

// The form that the matches name.
fn named_form(matches: &ArgMatches) -> Option<ServiceWord>
    ensures form { IfSome result (λ form. IsSomeAnd (subcommand_rows_of matches.now)
        (λ call. IsNamed call form)) }
    ensures only { (form : ServiceWord) → IsSomeAnd (subcommand_rows_of matches.now)
        (λ call. IsNamed call form) → result ≡ Some form }
{
    let (name, given) = matches.subcommand()?;
    match name {
        "play" => Some(ServiceWord::Play),
        "race" => Some(ServiceWord::Race),
        "stress" => Some(ServiceWord::Stress(read_frames(given.get_str("frames")?)?)),
        "render" => Some(ServiceWord::Render),
        "damage" => Some(ServiceWord::Damage),
        "focus" => Some(ServiceWord::Focus),
        "pointer" => Some(ServiceWord::Pointer),
        "judge" => Some(ServiceWord::Judge),
        "why" => Some(ServiceWord::Why),
        "film" => Some(ServiceWord::Film),
        _ => None,
    }
}

// The number of frames of a load.
fn read_frames(word: &str) -> Option<u32>
    ensures text { IfSome result (λ n. (decimal n ≡ word.now) × (1 ≤ n) × (n ≤ LOAD_FRAMES_MAX)) }
    ensures only { (n : ℕ) → decimal n ≡ word.now → 1 ≤ n → n ≤ LOAD_FRAMES_MAX → result ≡ Some n }
{
    let n = read_natural(word.as_bytes())?;
    if 1 <= n && n <= LOAD_FRAMES_MAX as u128 {
        Some(n as u32)
    } else {
        None
    }
}
