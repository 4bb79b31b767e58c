ghost use Rattle.std.specs.Prelude.{◌≡◌, option_map};
ghost use Rattle.clap.specs.Lexer.{long_of, strip_byte};
ghost use Rattle.pp_call.specs.CallWords.{asks_for_help, asks_for_version, is_option};

/// What follows a first hyphen.
fn after_hyphen(word: &str) -> Option<&str>
    ensures { option_map (λ rest. rest.now) result ≡ strip_byte 45 word.now }
{
    word.strip_prefix('-')
}

/// The name of an option, and the value that stands in its word, if it is one with two hyphens.
pub(crate) fn long_of(word: &str) -> Option<(&str, Option<&str>)>
    ensures { option_map (λ p. (p.0.now, option_map (λ value. value.now) p.1)) result
        ≡ long_of word.now }
{
    let rest = after_hyphen(after_hyphen(word)?)?;
    if rest.is_empty() {
        return None;
    }
    match rest.split_once('=') {
        Some((name, value)) => Some((name, Some(value))),
        None => Some((rest, None)),
    }
}

/// The first letter after a word's hyphen.
pub(crate) fn letter_of(word: &str) -> Option<&str> {
    let rest = after_hyphen(word)?;
    let letter = rest.chars().next()?;
    rest.get(..letter.len_utf8())
}

/// Whether a word looks like an option: it begins with a hyphen, and is neither `-` nor `--`.
pub(crate) fn is_option(word: &str) -> bool
    ensures { result ≡ is_option word.now }
{
    match after_hyphen(word) {
        Some(rest) => !rest.is_empty() && rest != "-",
        None => false,
    }
}

pub(crate) fn asks_for_help(word: &str) -> bool
    ensures { result ≡ asks_for_help word.now }
{
    word == "--help" || word.as_bytes().starts_with(b"-h")
}

pub(crate) fn asks_for_version(word: &str) -> bool
    ensures { result ≡ asks_for_version word.now }
{
    word == "--version" || word.as_bytes().starts_with(b"-V")
}
