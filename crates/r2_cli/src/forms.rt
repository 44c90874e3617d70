//! The command line.

ghost use Rattle.std.specs.Prelude.{◌≡◌, ◌≤◌, ℕ, List, IfNone, IfSome, decimal, false, true};
ghost use Rattle.r2_cli.specs.Words.{texts_of, IsForm, IsUsage, CanGenerate, CanRecord, help, version, order, check, stubs, gen, recording};
ghost use Rattle.r2_cli.specs.Forms.{form_of};

use r2_base::read_dec;

/// The most rounds of a generated program.
const MOST_ROUNDS: i128 = 40_000;

/// A command with its words.
#[derive(Clone, Copy)]
pub enum Command<'a> {
    Help,
    Version,
    Order {
        log: &'a str,
    },
    Check {
        source: &'a str,
        cut: &'a str,
    },
    Stubs {
        source: &'a str,
        cut: &'a str,
    },
    Generate {
        rounds: u32,
        source: &'a str,
        system: &'a str,
    },
    Record {
        source: &'a str,
        cut: &'a str,
        system: &'a str,
        log: &'a str,
        report: &'a str,
    },
}

fn help_form(words: &[String]) -> Option<Command<'_>>
    ensures form { IfSome result (λ c. IsForm (texts_of words.now) (form_of c)) }
    ensures none { IfNone result (IsForm (texts_of words.now) help → ⊥) }
{
    match words {
        [word] if word.as_str() == "--help" => Some(Command::Help),
        _ => None,
    }
}

fn version_form(words: &[String]) -> Option<Command<'_>>
    ensures form { IfSome result (λ c. IsForm (texts_of words.now) (form_of c)) }
    ensures none { IfNone result (IsForm (texts_of words.now) version → ⊥) }
{
    match words {
        [word] if word.as_str() == "--version" => Some(Command::Version),
        _ => None,
    }
}

fn order_form(words: &[String]) -> Option<Command<'_>>
    ensures form { IfSome result (λ c. IsForm (texts_of words.now) (form_of c)) }
    ensures none { IfNone result ((log : List ℕ) → IsForm (texts_of words.now) (order log) → ⊥) }
{
    match words {
        [word, log] if word.as_str() == "order" && !log.as_str().is_empty() => Some(Command::Order {
            log: log.as_str(),
        }),
        _ => None,
    }
}

fn check_form(words: &[String]) -> Option<Command<'_>>
    ensures form { IfSome result (λ c. IsForm (texts_of words.now) (form_of c)) }
    ensures none { IfNone result ((src cut : List ℕ) → IsForm (texts_of words.now) (check src cut) → ⊥) }
{
    match words {
        [word, source, cut] if word.as_str() == "check" && !source.as_str().is_empty() => {
            Some(Command::Check {
                source: source.as_str(),
                cut: cut.as_str(),
            })
        }
        _ => None,
    }
}

fn stubs_form(words: &[String]) -> Option<Command<'_>>
    ensures form { IfSome result (λ c. IsForm (texts_of words.now) (form_of c)) }
    ensures none { IfNone result ((src cut : List ℕ) → IsForm (texts_of words.now) (stubs src cut) → ⊥) }
{
    match words {
        [word, source, cut] if word.as_str() == "stubs" && !source.as_str().is_empty() => {
            Some(Command::Stubs {
                source: source.as_str(),
                cut: cut.as_str(),
            })
        }
        _ => None,
    }
}

/// The number of rounds that a word spells.
fn rounds_of(word: &str) -> Option<u32>
    ensures some { IfSome result (λ n. word.now ≡ decimal n) }
    ensures least { IfSome result (λ n. 1 ≤ n) }
    ensures most { IfSome result (λ n. n ≤ 40000) }
    ensures none { IfNone result ((n : ℕ) → 1 ≤ n → n ≤ 40000 → word.now ≡ decimal n → ⊥) }
{
    let number = read_dec(word.as_bytes())?;
    if number < 1 {
        return None;
    }
    if number > MOST_ROUNDS {
        return None;
    }
    Some(number as u32)
}

/// The number of rounds, where the two names are names of two files.
fn generated<'a>(rounds: &str, source: &'a str, system: &'a str) -> Option<Command<'a>>
    ensures form { IfSome result (λ c. (n : ℕ) × (rounds.now ≡ decimal n) ×
        (form_of c ≡ gen n source.now system.now) × CanGenerate n source.now system.now) }
    ensures none { IfNone result ((n : ℕ) → rounds.now ≡ decimal n → CanGenerate n source.now system.now →
        ⊥) }
{
    if source.is_empty() {
        return None;
    }
    if system.is_empty() {
        return None;
    }
    if source == system {
        return None;
    }
    let rounds = rounds_of(rounds)?;
    Some(Command::Generate {
        rounds,
        source,
        system,
    })
}

fn generate_form(words: &[String]) -> Option<Command<'_>>
    ensures form { IfSome result (λ c. IsForm (texts_of words.now) (form_of c)) }
    ensures none { IfNone result ((n : ℕ) (src sys : List ℕ) →
        IsForm (texts_of words.now) (gen n src sys) → ⊥) }
{
    match words {
        [word, rounds, source, system] if word.as_str() == "gen" => {
            generated(rounds.as_str(), source.as_str(), system.as_str())
        }
        _ => None,
    }
}

/// Whether these are the names of four files.
fn can_record(source: &str, system: &str, log: &str, report: &str) -> bool
    ensures yes { result ≡ true → CanRecord source.now system.now log.now report.now }
    ensures no { result ≡ false → CanRecord source.now system.now log.now report.now → ⊥ }
{
    if source.is_empty() {
        return false;
    }
    if system.is_empty() {
        return false;
    }
    if log.is_empty() {
        return false;
    }
    if report.is_empty() {
        return false;
    }
    if source == system {
        return false;
    }
    if source == log {
        return false;
    }
    if source == report {
        return false;
    }
    if system == log {
        return false;
    }
    if system == report {
        return false;
    }
    log != report
}

/// The recording, where the four names are names of four files.
fn recorded<'a>(
    source: &'a str,
    cut: &'a str,
    system: &'a str,
    log: &'a str,
    report: &'a str,
) -> Option<Command<'a>>
    ensures form { IfSome result (λ c.
        (form_of c ≡ recording source.now cut.now system.now log.now report.now)
        × CanRecord source.now system.now log.now report.now) }
    ensures none { IfNone result (CanRecord source.now system.now log.now report.now → ⊥) }
{
    if !can_record(source, system, log, report) {
        return None;
    }
    Some(Command::Record {
        source,
        cut,
        system,
        log,
        report,
    })
}

fn record_form(words: &[String]) -> Option<Command<'_>>
    ensures form { IfSome result (λ c. IsForm (texts_of words.now) (form_of c)) }
    ensures none { IfNone result ((src cut sys log rep : List ℕ) →
        IsForm (texts_of words.now) (recording src cut sys log rep) → ⊥) }
{
    match words {
        [word, source, cut, system, log, report] if word.as_str() == "record" => recorded(
            source.as_str(),
            cut.as_str(),
            system.as_str(),
            log.as_str(),
            report.as_str(),
        ),
        _ => None,
    }
}

/// The command that the words say; None where they have none of the forms.
pub fn command_of(words: &[String]) -> Option<Command<'_>>
    ensures form { IfSome result (λ c. IsForm (texts_of words.now) (form_of c)) }
    ensures none { IfNone result (IsUsage (texts_of words.now)) }
{
    if let Some(command) = help_form(words) {
        return Some(command);
    }
    if let Some(command) = version_form(words) {
        return Some(command);
    }
    if let Some(command) = order_form(words) {
        return Some(command);
    }
    if let Some(command) = check_form(words) {
        return Some(command);
    }
    if let Some(command) = stubs_form(words) {
        return Some(command);
    }
    if let Some(command) = record_form(words) {
        return Some(command);
    }
    generate_form(words)
}
