//! What the words after the program's name mean.
ghost use Rattle.std.specs.Prelude.{◌≡◌, ◌≤◌, IfSome, true, nat_le, if◌then◌else◌, map, string_bytes};
ghost use Rattle.rite_tool.specs.Words.{is_digit, are_digits, is_numeral, value_after, most_turns, number_of, is_name, two_files, one_file, options_of, exec_of, command_of, stats_of, stats_unless, run_after, run_of, sample_size, sample_of};
ghost use Rattle.rite_tool.specs.Asked.{asked, run_asked};
ghost use Rattle.std.specs.Option.{option_map};

use sample_source::LARGEST;

/// What the words ask for.
#[derive(Clone, Copy, Debug)]
pub enum Command<'a> {
    /// The code of the source in the first file goes into the second.
    Build {
        source: &'a str,
        file: &'a str,
    },
    /// At most `steps` turns of the source in the first file, whose code goes into the second.
    Exec {
        steps: u64,
        source: &'a str,
        file: &'a str,
    },
    /// The listing of the code in the file.
    List {
        file: &'a str,
    },
    /// The header and the sections of the file.
    Info {
        file: &'a str,
    },
}

/// A run of the code in a file: at most `steps` turns, whose counts are told where they are wanted.
#[derive(Clone, Copy, Debug)]
pub struct Run<'a> {
    pub steps: u64,
    pub counts: bool,
    pub file: &'a str,
}

/// The command that the words are, if they are one.
pub fn read_words(words: &[String]) -> Option<Command<'_>>
    ensures { asked result ≡ command_of (map string_bytes words.now) }
{
    let [word, rest @ ..] = words else {
        return None;
    };
    let name = word.as_bytes();
    if name == b"exec".as_slice() {
        exec(rest)
    } else if name == b"build".as_slice() {
        let (source, file) = two_files(rest)?;
        Some(Command::Build { source, file })
    } else if name == b"list".as_slice() {
        let file = one_file(rest)?;
        Some(Command::List { file })
    } else if name == b"info".as_slice() {
        let file = one_file(rest)?;
        Some(Command::Info { file })
    } else {
        None
    }
}

// The command after the word exec.
fn exec(words: &[String]) -> Option<Command<'_>>
    ensures { asked result ≡ exec_of (map string_bytes words.now) }
{
    let (steps, words) = options(words)?;
    let (source, file) = two_files(words)?;
    Some(Command::Exec {
        steps,
        source,
        file,
    })
}

/// The run that the words ask for, if they do.
pub fn read_run(words: &[String]) -> Option<Run<'_>>
    ensures { run_asked result ≡ run_of (map string_bytes words.now) }
{
    let [word, rest @ ..] = words else {
        return None;
    };
    if word.as_bytes() != b"run".as_slice() {
        return None;
    }
    run_behind(rest)
}

// The run after the word run.
fn run_behind(words: &[String]) -> Option<Run<'_>>
    ensures { run_asked result ≡ run_after (map string_bytes words.now) }
{
    let (wanted, words) = stats(words);
    let (steps, words) = options(words)?;
    let (counts, words) = stats_unless(wanted, words);
    let file = one_file(words)?;
    Some(Run {
        steps,
        counts,
        file,
    })
}

// Whether the counts of a run are wanted, and the words after that option.
fn stats(words: &[String]) -> (bool, &[String])
    ensures { (result.0, map string_bytes result.1.now) ≡ stats_of (map string_bytes words.now) }
{
    match words {
        [word, rest @ ..] if word.as_bytes() == b"--stats".as_slice() => (true, rest),
        _ => (false, words),
    }
}

// The same, unless they were wanted already.
fn stats_unless(wanted: bool, words: &[String]) -> (bool, &[String])
    ensures { (result.0, map string_bytes result.1.now) ≡ stats_unless wanted (map string_bytes words.now) }
{
    if wanted { (true, words) } else { stats(words) }
}

/// The size of the sample that the words ask for, if they do.
pub fn read_sample(words: &[String]) -> Option<u64>
    ensures asked { result ≡ sample_of (map string_bytes words.now) }
    ensures within { IfSome result (λ size. size ≤ 200) }
{
    match words {
        [word, size] if word.as_bytes() == b"sample".as_slice() => sample_size(size.as_bytes()),
        _ => None,
    }
}

// The size of a sample that the word spells.
fn sample_size(word: &[u8]) -> Option<u64>
    ensures spelled { result ≡ sample_size (number_of word.now) }
    ensures within { IfSome result (λ size. size ≤ 200) }
{
    let size = number(word)?;
    if 1 <= size && size <= LARGEST {
        Some(size)
    } else {
        None
    }
}

// The number of turns that is asked for, and the words after the options.
fn options(words: &[String]) -> Option<(u64, &[String])>
    ensures { option_map (λ o. (o.0, map string_bytes o.1.now)) result ≡ options_of (map string_bytes words.now) }
{
    match words {
        [word, next, rest @ ..] if word.as_bytes() == b"--steps".as_slice() => {
            Some((number(next.as_bytes())?, rest))
        }
        _ => Some((u64::MAX, words)),
    }
}

// The names of two files and nothing else.
fn two_files(words: &[String]) -> Option<(&str, &str)>
    ensures { option_map (λ files. (files.0.now, files.1.now)) result ≡ two_files (map string_bytes words.now) }
{
    match words {
        [source, file] if is_name(source.as_bytes()) && is_name(file.as_bytes()) => {
            Some((source.as_str(), file.as_str()))
        }
        _ => None,
    }
}

// The name of a file and nothing else.
fn one_file(words: &[String]) -> Option<&str>
    ensures { option_map (λ file. file.now) result ≡ one_file (map string_bytes words.now) }
{
    match words {
        [file] if is_name(file.as_bytes()) => Some(file.as_str()),
        _ => None,
    }
}

// Whether the word may name a file.
fn is_name(word: &[u8]) -> bool
    ensures { result ≡ is_name word.now }
{
    match word {
        [] => false,
        [b'-', b'-', ..] => false,
        _ => true,
    }
}

// The number that the word spells.
#[tactic(auto, unfolding(crate::specs::Words::number_of), using(crate::proofs::Digits::numeral_digits))]
fn number(word: &[u8]) -> Option<u64>
    ensures { result ≡ number_of word.now }
{
    if is_numeral(word) { value(word) } else { None }
}

// The value of digits, where it has 64 bits.
#[tactic(auto, using(crate::proofs::Digits::digit_steps))]
fn value(digits: &[u8]) -> Option<u64>
    requires { are_digits digits.now ≡ true }
    ensures { result ≡
        (if nat_le (value_after 0 digits.now) most_turns then Some (value_after 0 digits.now) else None) }
{
    let mut value: u64 = 0;
    'digits: for digit in digits {
        value = value.checked_mul(10)?;
        value = value.checked_add(u64::from(*digit - b'0'))?;
    }
    Some(value)
}

fn is_numeral(word: &[u8]) -> bool
    ensures { result ≡ is_numeral word.now }
{
    match word {
        [] => false,
        [only] => only.is_ascii_digit(),
        [first, rest @ ..] => first.is_ascii_digit() && *first != b'0' && are_digits(rest),
    }
}

#[tactic(auto, using(crate::proofs::Digits::digit_steps))]
fn are_digits(word: &[u8]) -> bool
    ensures { result ≡ are_digits word.now }
{
    'bytes: for byte in word {
        if !byte.is_ascii_digit() {
            return false;
        }
    }
    true
}
