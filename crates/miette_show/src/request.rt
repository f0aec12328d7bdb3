//! Reads the arguments of `show`, and runs what they ask for.

ghost use Rattle.std.specs.Prelude.{◌≡◌, ◌↔◌, ◌⊎◌, Err, IfOk, IfSome, IsTrue, OnErr, OnOk, Some, false, true, ⊤};
ghost use Rattle.std.specs.HashMap.{IsEmpty};
ghost use Rattle.std.specs.List.{flat_map};
ghost use Rattle.std.specs.Option.{option_copied};
ghost use Rattle.miette.specs.rules.Detection.{IsToldBy};
ghost use Rattle.miette_show_rows.specs.rules.Looking.{IsFoundBy};
ghost use Rattle.miette_show_rows.specs.rules.FixesFiles.{FixesFiles, are_all_written, written_by_change};
ghost use Rattle.miette_show_rows.specs.rules.Statuses.{status_of};
ghost use Rattle.miette_show_rows.specs.declared.verdict.Verdict.{Verdict};
ghost use Rattle.miette_show_rows.specs.views.Reading.{left_of};
ghost use Rattle.miette_show_rows.specs.views.Writing.{Writes};
ghost use Rattle.miette_show.specs.declared.request.ShowRequest as code;
ghost use Rattle.miette_show.specs.rules.ShowWords.{AreWrong, IsWrong, folder_in, request_of, requested_by};
ghost use Rattle.miette_show.specs.views.Asked.{IsRequest, IsRun, front_of, is_drawn, words_of};

use crate::log::log_on;
use crate::show::{ShowStreams, refuse_words, show_on};
use crate::terminal::options_in_terminal;
use crate::words::{Format, FrontWords};
use miette::terminal::{Lookup, Streams as Terminals};
use miette_devices::fault::ProgramError;
use miette_highlight::highlight::Highlighter;
use miette_lsp::logs::LogOptions;
use miette_program::arguments::Arguments;
use miette_program::language::LanguageHighlighter;
use miette_read::files::Files;
use miette_show_rows::fix_files::fix_files_on;
use miette_show_rows::folder::Folder;
use miette_show_rows::folder_store::FolderStore;
use miette_show_rows::loader::FileLoader;
use miette_show_rows::store::FileStore;
use std::alloc::Global;
use std::io::{Read, Write};
use std::rt;

/// What the arguments of `show` ask for.
#[derive(Drop)]
pub enum ShowRequest<'w> {
    /// Prints each message, as a graphical report or in another form.
    Draw {
        /// The input format.
        from: Format,
        /// The form and its settings.
        settings: Arguments,
    },
    /// Writes one log of all messages: `--sarif` or `--lsp`.
    Log {
        /// The input format.
        from: Format,
        /// The form of the log, and the name of the tool.
        log: LogOptions<'w>,
    },
    /// Fixes files: `--fix`.
    Fix {
        /// Whether it also fixes files of packages with errors.
        broken: bool,
    },
}

/// The arguments of `show`.
#[derive(Drop)]
pub struct ShowWords<'w> {
    /// The root folder. Without one, file names are relative to the current folder.
    pub root: Option<&'w str>,
    /// What they ask for.
    pub request: ShowRequest<'w>,
}

/// Returns the request of the arguments. The options of `job` follow those that describe the terminal of standard
/// output.
///
/// # Errors
/// `Usage` if the options of `job` are wrong. `Memory` if allocation fails.
fn read_request<'w, R: Lookup + AllocGlobal + Terminals>(
    rt: &R,
    front: FrontWords<'w>,
) -> Result<ShowRequest<'w>, ProgramError>
    ensures ok { IfOk result (IsRequest (IsToldBy (R.variable_may_be rt.now) (R.terminal_may_be rt.now))
        (Some (request_of (front_of front.entry)))) }
    ensures usage { (result ≡ Err ProgramError.Usage) → IsWrong (Some (request_of (front_of front.entry))) }
    ensures others { OnErr result ((result ≡ Err ProgramError.Usage) ⊎ (result ≡ Err ProgramError.Memory)) }
{
    let from = front.from;
    if front.fix {
        return Ok(ShowRequest::Fix {
            broken: front.broken,
        });
    }
    if let Some(log) = LogOptions::asked(front.options, "show") {
        return Ok(ShowRequest::Log { from, log });
    }
    let options = options_in_terminal(rt, front.options)?;
    let settings = Arguments::read(rt.alloc(), options.as_slice())?;
    Ok(ShowRequest::Draw { from, settings })
}

impl<'w> ShowWords<'w> {
    /// Reads the arguments.
    ///
    /// # Errors
    /// `Usage` if they are wrong. `Memory` if allocation fails.
    pub fn read<R: Lookup + AllocGlobal + Terminals>(
        rt: &R,
        words: &'w [String],
    ) -> Result<ShowWords<'w>, ProgramError>
        // The request is the one of the arguments, on the terminal that `print_report` prints on.
        ensures ok { IfOk result (λ it. IsRequest (IsToldBy (R.variable_may_be rt.now) (R.terminal_may_be rt.now))
            (requested_by (words_of words.entry)) it.request) }
        ensures root { IfOk result (λ it. option_copied it.root ≡ folder_in (words_of words.entry)) }
        ensures usage { (result ≡ Err ProgramError.Usage) → AreWrong (words_of words.entry) }
        ensures right { OnOk result (¬ AreWrong (words_of words.entry)) }
        ensures others { OnErr result ((result ≡ Err ProgramError.Usage) ⊎ (result ≡ Err ProgramError.Memory)) }
    {
        let Some(front) = FrontWords::read(words) else {
            return Err(ProgramError::Usage);
        };
        Ok(ShowWords {
            root: front.root,
            request: read_request(rt, front)?,
        })
    }
}

impl<'w> ShowRequest<'w> {
    /// Returns whether messages are printed. Control characters of files are masked then.
    pub fn is_drawn(&self) -> bool
        ensures { result ≡ is_drawn self.now }
    {
        match self {
            ShowRequest::Draw { .. } => true,
            ShowRequest::Log { .. } | ShowRequest::Fix { .. } => false,
        }
    }

    /// Runs the request on all messages. Returns the exit code: that of the verdict, or 2 if a file can't be fixed.
    ///
    /// # Errors
    /// `Read` if and only if a call of the reader failed. `Write` if and only if a call of a writer failed. `Memory` if
    /// allocation fails.
    pub fn run<F: FileLoader, S: FileStore, R: Read, W: Write, E: Write>(
        self,
        alloc: Global,
        files: &mut F,
        store: &mut S,
        streams: &mut ShowStreams<R, W, E>,
    ) -> Result<u8, ProgramError>
        requires rows_sound { streams.old.rows.failed ≡ false }
        requires writer_sound { streams.old.writer.failed ≡ false }
        requires faults_sound { streams.old.faults.failed ≡ false }
        ensures status { let found = IsFoundBy F.found F.knows files.old in IfOk result (λ status. (status ≡ 2)
            ⊎ IfSome (left_of R.remaining streams.old.rows) (λ bytes. (verdict : Verdict)
            × (status ≡ status_of verdict) × IsRun ⟦<LanguageHighlighter as Highlighter>⟧.is_blank found
            (λ broken bytes verdict. FixesFiles found S.refuses broken bytes (λ changes left notes.
            (are_all_written changes left ≡ true)
            × Writes (S.written store.old) (S.written store.new) (flat_map written_by_change changes)) verdict)
            self.entry bytes verdict)) }
        ensures read_failed { IsTrue streams.new.rows.failed ↔ (result ≡ Err ProgramError.Read) }
        ensures write_failed { (IsTrue streams.new.writer.failed ⊎ IsTrue streams.new.faults.failed)
            ↔ (result ≡ Err ProgramError.Write) }
    {
        match self {
            ShowRequest::Draw { from, settings } => {
                let verdict = show_on(alloc, from, settings, files, streams)?;
                Ok(verdict.status())
            }
            ShowRequest::Log { from, log } => {
                let verdict = log_on(alloc, from, log, files, streams)?;
                Ok(verdict.status())
            }
            ShowRequest::Fix { broken } => {
                let (verdict, all) = fix_files_on(alloc, broken, files, store, streams)?;
                if all { Ok(verdict.status()) } else { Ok(2) }
            }
        }
    }
}

/// Returns the folder whose files are looked up. Their control characters are masked if `masks` is set.
fn folder_for<'r, H: rt::Files + AllocGlobal>(
    rt: &'r H,
    root: Option<&'r str>,
    masks: bool,
) -> Folder<'r, H>
    ensures empty { IsEmpty result.files }
    ensures root { option_copied result.lookup.root ≡ option_copied root.entry }
{
    let files = Folder::new(rt, root);
    if masks {
        files.with_visible_controls()
    } else {
        files
    }
}

/// Reads the arguments, and runs their request on all messages, over files of the root folder. Returns the exit code.
///
/// # Errors
/// `Usage` if the arguments are wrong. Nothing is read, looked up or written then. `Read` if and only if a call of the
/// reader failed. `Write` if and only if a call of a writer failed. `Memory` if allocation fails.
pub fn run_on<'r, H, R, W, E>(
    rt: &'r H,
    words: &'r [String],
    streams: &mut ShowStreams<R, W, E>,
) -> Result<u8, ProgramError>
where
    H: Lookup + AllocGlobal + Terminals + rt::Files,
    R: Read,
    W: Write,
    E: Write,
    requires rows_sound { streams.old.rows.failed ≡ false }
    requires writer_sound { streams.old.writer.failed ≡ false }
    requires faults_sound { streams.old.faults.failed ≡ false }
    // At first no file of the folder was looked up.
    ensures status { IfOk result (λ status. (status ≡ 2) ⊎ IfSome (left_of R.remaining streams.old.rows) (λ bytes.
        (request : code.ShowRequest) × (verdict : Verdict) × (status ≡ status_of verdict)
        × IsRequest (IsToldBy (H.variable_may_be rt.now) (H.terminal_may_be rt.now))
        (requested_by (words_of words.entry)) request
        × (files : _) × IsRun ⟦<LanguageHighlighter as Highlighter>⟧.is_blank
        (IsFoundBy ⟦<Folder<'r, H> as Files>⟧.found ⟦<Folder<'r, H> as FileLoader>⟧.knows files)
        (λ broken bytes verdict. FixesFiles
        (IsFoundBy ⟦<Folder<'r, H> as Files>⟧.found ⟦<Folder<'r, H> as FileLoader>⟧.knows files) (λ name. ⊤) broken
        bytes (λ changes left notes. are_all_written changes left ≡ true) verdict) request bytes verdict
        × IsEmpty files.files × (option_copied files.lookup.root ≡ folder_in (words_of words.entry)))) }
    ensures usage { AreWrong (words_of words.entry) → (result ≡ Err ProgramError.Usage)
        ⊎ (result ≡ Err ProgramError.Memory) }
    ensures right { OnOk result (¬ AreWrong (words_of words.entry)) }
    ensures unread { AreWrong (words_of words.entry) → streams.new ≡ streams.old }
    ensures read_failed { IsTrue streams.new.rows.failed ↔ (result ≡ Err ProgramError.Read) }
    ensures write_failed { (IsTrue streams.new.writer.failed ⊎ IsTrue streams.new.faults.failed)
        ↔ (result ≡ Err ProgramError.Write) }
{
    let ShowWords { root, request } = ShowWords::read(rt, words)?;
    let mut files = folder_for(rt, root, request.is_drawn());
    let mut store = FolderStore::new(rt, root);
    request.run(rt.alloc(), &mut files, &mut store, streams)
}

/// Runs `show` and returns the exit code.
///
/// - 2 after any error, which is reported to `faults`, and if the arguments are wrong
/// - 2 if a file can't be fixed
/// - otherwise that of the verdict
pub fn run_program<'r, H, R, W, E>(
    rt: &'r H,
    words: &'r [String],
    streams: ShowStreams<R, W, E>,
) -> u8
where
    H: Lookup + AllocGlobal + Terminals + rt::Files,
    R: Read + Drop,
    W: Write + Drop,
    E: Write + Drop,
    requires rows_sound { streams.rows.failed ≡ false }
    requires writer_sound { streams.writer.failed ≡ false }
    requires faults_sound { streams.faults.failed ≡ false }
    // Either 2, or the request was run on all messages.
    ensures status { (result ≡ 2) ⊎ IfSome (left_of R.remaining streams.rows) (λ bytes.
        (request : code.ShowRequest) × (verdict : Verdict) × (result ≡ status_of verdict)
        × IsRequest (IsToldBy (H.variable_may_be rt.now) (H.terminal_may_be rt.now))
        (requested_by (words_of words.entry)) request
        × (files : _) × IsRun ⟦<LanguageHighlighter as Highlighter>⟧.is_blank
        (IsFoundBy ⟦<Folder<'r, H> as Files>⟧.found ⟦<Folder<'r, H> as FileLoader>⟧.knows files)
        (λ broken bytes verdict. FixesFiles
        (IsFoundBy ⟦<Folder<'r, H> as Files>⟧.found ⟦<Folder<'r, H> as FileLoader>⟧.knows files) (λ name. ⊤) broken
        bytes (λ changes left notes. are_all_written changes left ≡ true) verdict) request bytes verdict
        × IsEmpty files.files × (option_copied files.lookup.root ≡ folder_in (words_of words.entry))) }
    ensures usage { AreWrong (words_of words.entry) → result ≡ 2 }
{
    let mut streams = streams;
    match run_on(rt, words, &mut streams) {
        Ok(status) => status,
        Err(fault) => refuse_words(fault, streams.faults.into_inner()),
    }
}
