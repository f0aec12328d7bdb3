//! The arguments of `show`.

ghost use Rattle.std.specs.Prelude.{◌≡◌};
ghost use Rattle.std.specs.Option.{option_copied, option_map};
ghost use Rattle.miette_show.specs.rules.ShowWords.{asked_for, asked_in_front, folder_named, format_named};
ghost use Rattle.miette_show.specs.rules.ShowWords.{is_alone};
ghost use Rattle.miette_show.specs.views.Asked.{front_of, words_of};

/// The format that is read.
#[derive(Clone, Copy, Debug, PartialEq, Eq)]
pub enum Format {
    /// Any of the others, by the content of a line.
    Auto,
    /// Messages of rustc and cargo.
    Rustc,
    /// GCC's diagnostics.
    Gcc,
    /// SARIF logs.
    Sarif,
    /// ShellCheck's comments.
    ShellCheck,
}

impl Format {
    /// Returns the format with this name.
    fn named(name: &str) -> Option<Format>
        ensures { result ≡ format_named name.now }
    {
        match name {
            "auto" => Some(Format::Auto),
            "rustc" => Some(Format::Rustc),
            "gcc" => Some(Format::Gcc),
            "sarif" => Some(Format::Sarif),
            "shellcheck" => Some(Format::ShellCheck),
            _ => None,
        }
    }
}

/// Returns a folder's name, unless it is empty.
fn folder_named(name: &str) -> Option<&str>
    ensures { option_copied result ≡ folder_named name.now }
{
    if name.is_empty() { None } else { Some(name) }
}

/// The arguments of `show`, followed by those of `job`.
#[derive(Clone, Copy)]
pub(crate) struct FrontWords<'w> {
    /// The folder that file names are relative to. `None` is the current folder.
    pub(crate) root: Option<&'w str>,
    /// The format that is read.
    pub(crate) from: Format,
    /// Whether files are fixed. Then there are no arguments of `job`.
    pub(crate) fix: bool,
    /// Whether files of packages with errors are fixed too.
    pub(crate) broken: bool,
    /// The arguments of `job`.
    pub(crate) options: &'w [String],
}

impl<'w> FrontWords<'w> {
    /// Parses the arguments of `show`. Returns `None` if they are wrong.
    fn front(words: &'w [String]) -> Option<FrontWords<'w>>
        ensures { option_map front_of result ≡ asked_in_front (words_of words.entry) }
    {
        let mut root = None;
        let mut from = Format::Auto;
        let mut fix = false;
        let mut broken = false;
        let mut rest = words;
        while let Some((word, more)) = rest.split_first() {
            match word.as_str() {
                "--fix" => {
                    fix = true;
                    rest = more;
                }
                "--broken-code" => {
                    broken = true;
                    rest = more;
                }
                "--root" => {
                    let (value, after) = more.split_first()?;
                    root = Some(folder_named(value.as_str())?);
                    rest = after;
                }
                "--from" => {
                    let (value, after) = more.split_first()?;
                    from = Format::named(value.as_str())?;
                    rest = after;
                }
                _ => break,
            }
        }
        Some(FrontWords {
            root,
            from,
            fix,
            broken,
            options: rest,
        })
    }

    /// Returns whether no argument of `job` follows `--fix`, and `--broken-code` has its `--fix`.
    fn is_alone(&self) -> bool
        ensures { result ≡ is_alone (front_of self.now) }
    {
        if self.fix {
            self.options.is_empty()
        } else {
            !self.broken
        }
    }

    /// Parses the arguments of `show`. Returns `None` if they are wrong: for an empty folder name, for arguments of
    /// `job` after `--fix`, and for `--broken-code` without `--fix`.
    pub(crate) fn read(words: &'w [String]) -> Option<FrontWords<'w>>
        ensures { option_map front_of result ≡ asked_for (words_of words.entry) }
    {
        let asked = FrontWords::front(words)?;
        if asked.is_alone() { Some(asked) } else { None }
    }
}
