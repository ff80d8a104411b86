//! What the words in front of the command ask of the whole run.
ghost use Rattle.std.specs.Prelude.{◌≡◌, ◌∷◌, IfNone, IfSome, map};
ghost use Rattle.statements_facts.specs.declared.profile.Profile.{Profile};
ghost use Rattle.cli_words.specs.RunOptions.{BeginsWithoutProfile, BeginsWithoutSeconds, EndsWith, IsProfileName, IsSeconds, LacksValue, TakesOption, TakesOptions};

use statements_facts::Profile;

/// Options that stand in front of the command, as in `x509check --hints --wait 5 check ..`.
#[derive(Clone, Copy, Debug, PartialEq, Eq)]
pub struct RunOptions {
    /// Whether a failure is followed by a second line on standard error, which says what to do.
    pub hints: bool,
    /// For how many seconds a store is waited for that another process has open.
    pub wait: u16,
    /// The profile of its stores, in which statements, and the certificates of paths, are read.
    pub profile: Profile,
}

/// The options, and the words behind them.
#[derive(Clone, Copy, Debug)]
pub struct RunWords<'w, 'a> {
    pub options: RunOptions,
    pub words: &'w [&'a str],
}

const NO_HINTS: bool = false;

const TEN_SECONDS: u16 = 10;

// The seconds with which the words begin, and the words behind them.
fn seconds_in<'w, 'a>(words: &'w [&'a str]) -> Option<(u16, &'w [&'a str])>
    ensures seconds { IfSome result (λ read. (word : _) × IsSeconds word read.0
        × (map (λ w. w.now) words.now ≡ word ∷ map (λ w. w.now) read.1.now)) }
    ensures rest { IfSome result (λ read. EndsWith words.now read.1.now) }
    ensures none { IfNone result (BeginsWithoutSeconds (map (λ w. w.now) words.now)) }
{
    let [seconds, rest @ ..] = words else {
        return None;
    };
    match seconds.parse::<u16>() {
        Ok(wait) => Some((wait, rest)),
        Err(_) => None,
    }
}

// The profile that the word names.
fn profile_named(word: &str) -> Option<Profile>
    ensures profile { IfSome result (IsProfileName word.now) }
    ensures none { IfNone result ((profile : Profile) → IsProfileName word.now profile → ⊥) }
{
    match word {
        "stated" => Some(Profile::Stated),
        "wide" => Some(Profile::Wide),
        _ => None,
    }
}

// The profile with which the words begin, and the words behind it.
fn profile_in<'w, 'a>(words: &'w [&'a str]) -> Option<(Profile, &'w [&'a str])>
    ensures profile { IfSome result (λ read. (word : _) × IsProfileName word read.0
        × (map (λ w. w.now) words.now ≡ word ∷ map (λ w. w.now) read.1.now)) }
    ensures rest { IfSome result (λ read. EndsWith words.now read.1.now) }
    ensures none { IfNone result (BeginsWithoutProfile (map (λ w. w.now) words.now)) }
{
    let [word, rest @ ..] = words else {
        return None;
    };
    match profile_named(word) {
        Some(profile) => Some((profile, rest)),
        None => None,
    }
}

/// What the option for the whole run with which the command begins wants behind it, if no such value stands there.
pub(crate) fn value_wanted(words: &[&str]) -> Option<&'static str>
    ensures lacks { IfSome result (λ _. LacksValue (map (λ w. w.now) words.now)) }
    ensures none { IfNone result (LacksValue (map (λ w. w.now) words.now) → ⊥) }
{
    let [_, command @ ..] = words else {
        return None;
    };
    let [option, values @ ..] = command else {
        return None;
    };
    match *option {
        "--wait" => match seconds_in(values) {
            Some(_) => None,
            None => Some("SECONDS has to be a number from 0 to 65535"),
        },
        "--profile" => match profile_in(values) {
            Some(_) => None,
            None => Some("PROFILE has to be 'stated' or 'wide'"),
        },
        _ => None,
    }
}

// The option that the words begin with is taken; words that begin with none stay.
fn take_option<'w, 'a>(it: RunWords<'w, 'a>) -> RunWords<'w, 'a>
    ensures takes { TakesOption it.entry.options (map (λ w. w.now) it.entry.words.now)
        result.options (map (λ w. w.now) result.words.now) }
    ensures rest { EndsWith it.entry.words.now result.words.now }
{
    let [first, rest @ ..] = it.words else {
        return it;
    };
    let options = it.options;
    match *first {
        "--hints" => RunWords {
            options: RunOptions {
                hints: true,
                ..options
            },
            words: rest,
        },
        "--wait" => match seconds_in(rest) {
            Some((wait, behind)) => RunWords {
                options: RunOptions { wait, ..options },
                words: behind,
            },
            None => it,
        },
        "--profile" => match profile_in(rest) {
            Some((profile, behind)) => RunWords {
                options: RunOptions { profile, ..options },
                words: behind,
            },
            None => it,
        },
        _ => it,
    }
}

/// Splits the words into the options of the run, which stand first, and the command with its own words. Options are `--hints`,
/// `--wait SECONDS` (0 to 65535) and `--profile PROFILE` (`stated` or `wide`), in any order, at most three of them. By default there are no
/// hints, a store is waited for ten seconds, and the profile is the stated one. An option without a value of its own, and any other word in
/// front, stays with the command, which refuses it.
pub fn run_options<'w, 'a>(words: &'w [&'a str]) -> RunWords<'w, 'a>
    ensures takes { TakesOptions (map (λ w. w.now) words.now) result.options
        (map (λ w. w.now) result.words.now) }
    ensures rest { EndsWith words.now result.words.now }
{
    let options = RunOptions {
        hints: NO_HINTS,
        wait: TEN_SECONDS,
        profile: Profile::Stated,
    };
    take_option(take_option(take_option(RunWords { options, words })))
}
