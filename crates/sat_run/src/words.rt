ghost use Rattle.std.specs.Prelude.{◌≡◌, ◌<◌, ◌≤◌, Some, None, length, map, codes, IfOk, IfErr, OnErr};
ghost use Rattle.std.specs.Option.{option_map, option_and_then};
ghost use Rattle.std.specs.Str.{all_ascii_digits};
ghost use Rattle.sat_lits.specs.Limits.{standard_limits};
ghost use Rattle.sat_run.specs.Progress.{limits_of};
ghost use Rattle.sat_api.specs.State.{new_solver};
ghost use Rattle.sat_run.specs.Words.{number_of, setting_of, with_limit, with_input, with_threads, with_shared, with_setting, with_number, with_word, settled, chosen_with, no_options, options_of, with_options, input_of, threads_of};

use sat_api::SatSolver;
use sat_lits::Limits;

/// The word that the number of a conflict limit follows.
const MAX_CONFLICTS: &str = "--maxconfl";

/// What the number follows where both are one word.
const MAX_CONFLICTS_IS: &str = "--maxconfl=";

/// The word that the greatest number of input bytes follows.
const MAX_INPUT: &str = "--max-input";

/// What the number follows where both are one word.
const MAX_INPUT_IS: &str = "--max-input=";

/// The word that the number of threads follows.
const THREADS: &str = "--threads";

/// What the number follows where both are one word.
const THREADS_IS: &str = "--threads=";

/// The word that asks for the shared clauses.
const PRINT_SHARED: &str = "--print-shared";

/// The most digits of a number.
const MOST_DIGITS: usize = 20;

/// What the words of the command line choose.
#[derive(Clone, Copy, Debug, PartialEq, Eq)]
pub struct Options {
    /// The number of threads.
    pub threads: Option<u32>,
    /// The number of conflicts that a solver may make.
    pub max_conflicts: Option<u64>,
    /// The number of bytes that a text may have.
    pub max_input: Option<u64>,
    /// Whether the clauses that the threads share are written.
    pub print_shared: bool,
}

/// An option that a number follows.
#[derive(Clone, Copy, Debug, PartialEq, Eq)]
pub enum Setting {
    MaxConflicts,
    MaxInput,
    ThreadCount,
}

impl Options {
    /// The options where there is no word.
    fn new() -> Options
        ensures { result ≡ no_options }
    {
        Options {
            threads: None,
            max_conflicts: None,
            max_input: None,
            print_shared: false,
        }
    }

    /// The limits on a text: the standard ones, but for the one on input where it is set.
    pub fn limits(self) -> Limits
        requires { input_of self ≤ standard_limits.input }
        ensures { result ≡ limits_of (input_of self) }
    {
        let standard = Limits::standard();
        let input = self.max_input.unwrap_or(standard.input());
        Limits::new(standard.vars(), standard.lits(), standard.threads(), input).unwrap()
    }

    /// Sets a solver as these options say. It took nothing yet.
    pub fn set(self, solver: &mut SatSolver)
        requires new { solver.old ≡ new_solver standard_limits }
        requires some { 0 < threads_of self }
        requires few { threads_of self ≤ standard_limits.threads }
        ensures { solver.new ≡ with_options self solver.old }
    {
        solver.set_max_confl(self.max_conflicts);
        solver.set_num_threads(self.threads.unwrap_or(1)).unwrap();
    }

    /// Sets an option that was not set before, where the number is one that it may have.
    fn with_setting(self, setting: Setting, number: u64) -> Option<Options>
        ensures { result ≡ with_setting self setting number }
    {
        match setting {
            Setting::MaxConflicts => self.with_limit(number),
            Setting::MaxInput => self.with_input(number),
            Setting::ThreadCount => self.with_threads(number),
        }
    }

    /// Sets the conflict limit.
    fn with_limit(self, limit: u64) -> Option<Options>
        ensures { result ≡ with_limit self limit }
    {
        match self.max_conflicts {
            None => Some(Options {
                max_conflicts: Some(limit),
                ..self
            }),
            Some(_) => None,
        }
    }

    /// Sets the limit on input.
    fn with_input(self, most: u64) -> Option<Options>
        ensures { result ≡ with_input self most }
    {
        match self.max_input {
            None if most <= Limits::standard().input() => Some(Options {
                max_input: Some(most),
                ..self
            }),
            _ => None,
        }
    }

    /// Sets the number of threads.
    fn with_threads(self, count: u64) -> Option<Options>
        ensures { result ≡ with_threads self count }
    {
        match self.threads {
            None if 0 < count && count <= u64::from(Limits::standard().threads()) => {
                Some(Options {
                    threads: Some(count as u32),
                    ..self
                })
            }
            _ => None,
        }
    }

    /// Asks for the shared clauses.
    fn with_shared(self) -> Option<Options>
        ensures { result ≡ with_shared self }
    {
        if self.print_shared {
            None
        } else {
            Some(Options {
                print_shared: true,
                ..self
            })
        }
    }

    /// Sets an option to the number that a word is.
    fn with_number(self, setting: Setting, word: &str) -> Option<Options>
        ensures { result ≡ with_number self setting word.now }
    {
        match number_of(word) {
            Some(number) => self.with_setting(setting, number),
            None => None,
        }
    }

    /// Sets what a word says that is an option without a number, or an option's name, an equals sign and
    /// its number.
    fn with_word(self, word: &str) -> Option<Options>
        ensures { result ≡ with_word self word.now }
    {
        if word == PRINT_SHARED {
            self.with_shared()
        } else if let Some(number) = word.strip_prefix(MAX_CONFLICTS_IS) {
            self.with_number(Setting::MaxConflicts, number)
        } else if let Some(number) = word.strip_prefix(MAX_INPUT_IS) {
            self.with_number(Setting::MaxInput, number)
        } else if let Some(number) = word.strip_prefix(THREADS_IS) {
            self.with_number(Setting::ThreadCount, number)
        } else {
            None
        }
    }
}

/// What the words so far choose, and the option that was named and whose number is to come.
#[derive(Clone, Copy, Debug, PartialEq, Eq)]
pub struct Chosen {
    pub options: Options,
    pub named: Option<Setting>,
}

impl Chosen {
    /// What is chosen behind a word more, where it is taken.
    fn with(self, word: &str) -> Option<Chosen>
        ensures { result ≡ chosen_with self word.now }
    {
        match (self.named, setting_of(word)) {
            (Some(setting), _) => settled(self.options.with_number(setting, word)),
            (None, None) => settled(self.options.with_word(word)),
            (None, named) => Some(Chosen { named, ..self }),
        }
    }
}

/// The options, where they are taken, with no option named.
fn settled(options: Option<Options>) -> Option<Chosen>
    ensures { result ≡ option_map settled options }
{
    options.map(|options| Chosen {
        options,
        named: None,
    })
}

/// The option whose name a word is.
fn setting_of(word: &str) -> Option<Setting>
    ensures { result ≡ setting_of word.now }
{
    if word == MAX_CONFLICTS {
        Some(Setting::MaxConflicts)
    } else if word == MAX_INPUT {
        Some(Setting::MaxInput)
    } else if word == THREADS {
        Some(Setting::ThreadCount)
    } else {
        None
    }
}

/// The number that a word of one to twenty digits is.
fn number_of(word: &str) -> Option<u64>
    ensures { result ≡ number_of word.now }
{
    if word.is_empty() || word.len() > MOST_DIGITS || !all_digits(word.as_bytes()) {
        return None;
    }
    word.parse().ok()
}

fn all_digits(word: &[u8]) -> bool
    ensures { result ≡ all_ascii_digits word.now }
{
    word.iter().all(|byte| byte.is_ascii_digit())
}

/// What the words choose. An error comes exactly where they are not taken. It is the place, from 0,
/// of the first word that is not; where the number of the last word is missing, that word's place.
///
/// Taken are a number of threads from 1 to 64, as `--threads 4` or `--threads=4`, a conflict limit, as
/// `--maxconfl 109`, a limit on the bytes of input, as `--max-input 4`, which is at most 2147483648, and
/// `--print-shared`. Each comes at most once, in any order.
pub fn read_words(words: &[&str]) -> Result<Options, usize>
    ensures ok { IfOk result (λ options. options_of (map (λ word. word.now) words.now) ≡ Some options) }
    ensures err { OnErr result (options_of (map (λ word. word.now) words.now) ≡ None) }
    ensures place { IfErr result (λ at. at < length words.now) }
{
    let mut chosen = Chosen {
        options: Options::new(),
        named: None,
    };
    for (at, word) in words.iter().enumerate() {
        chosen = chosen.with(word).ok_or(at)?;
    }
    match chosen.named {
        None => Ok(chosen.options),
        Some(_) => Err(words.len() - 1),
    }
}
