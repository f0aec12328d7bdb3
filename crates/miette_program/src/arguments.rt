//! The arguments of `job`, parsed.

ghost use Rattle.std.specs.Prelude.{◌≡◌, ◌⊎◌, IfOk, OnErr, Some, None, map, string_bytes, true};
ghost use Rattle.miette_program.specs.rules.OptionWords as table;
ghost use Rattle.miette_program.specs.rules.OptionWords.{AreParsed, parsed_arguments, handler_choice, no_arguments};
ghost use Rattle.miette_program.specs.steps.ParsedArguments.{AreGiven, parsed_of, with_argument, with_named};

use crate::language::LanguageHighlighter;
use crate::option_words::{Argument, NamedValue, read_named, split_argument};
use miette::handlers::BriefForm;
use miette::options::{MietteHandlerOpts, SetLayout};
use miette::theme::Terminal;
use miette::wrap::WordSplitter;
use miette_devices::fault::ProgramError;
use miette_devices::output_form::OutputForm;
use miette_devices::words::number;
use std::alloc::Global;

/// The handler that renders the report.
#[derive(Clone, Copy, Debug, PartialEq, Eq)]
pub enum Choice {
    /// The one that the options build: graphical, narrated or brief.
    Build,
    /// JSON.
    Json,
    /// The debug report.
    Debug,
}

/// The arguments of `job`, parsed.
#[derive(Drop)]
pub struct Arguments {
    /// The handler that renders the report.
    pub choice: Choice,
    /// The options of the built handler.
    pub options: MietteHandlerOpts<LanguageHighlighter>,
    /// The terminal, as the arguments describe it.
    pub terminal: Terminal,
}

/// Sets brief reports in this form.
fn brief_options(
    options: MietteHandlerOpts<LanguageHighlighter>,
    form: BriefForm,
) -> MietteHandlerOpts<LanguageHighlighter>
    ensures { result ≡ record options { brief = true; brief_form = form } }
{
    options.force_brief(true).brief_form(form)
}

impl Arguments {
    /// Parses the arguments after the program's name. If two arguments set the same thing, the last one counts.
    /// Whatever no argument sets is left to the handler.
    ///
    /// # Errors
    /// `Usage` for an unknown argument, for a missing or wrong value, and for a tab width or a number of lines or
    /// columns of 0. `Memory` if allocation fails.
    pub fn read(alloc: Global, words: &[String]) -> Result<Arguments, ProgramError>
        // The result is that of the table. A usage error occurs exactly if the table has none.
        ensures table { IfOk result (λ it. AreParsed (map string_bytes words.now) it.choice it.options it.terminal) }
        ensures usage { (result ≡ Err ProgramError.Usage) → parsed_arguments (map string_bytes words.now) ≡ None }
        // The last `--json` or `--debug` that isn't a value chooses the handler.
        ensures choice { IfOk result (λ it. handler_choice (map string_bytes words.now) ≡ Some it.choice) }
        ensures others { OnErr result ((result ≡ Err ProgramError.Usage) ⊎ (result ≡ Err ProgramError.Memory)) }
    {
        let mut settings = Arguments::empty();
        let mut rest = words;
        while !rest.is_empty() {
            let Some((asked, more)) = split_argument(rest) else {
                return Err(ProgramError::Usage);
            };
            settings = settings.with(alloc, asked)?;
            rest = more;
        }
        Ok(settings)
    }

    /// Without arguments, on a terminal without features.
    fn empty() -> Arguments
        ensures { parsed_of result ≡ no_arguments }
    {
        Arguments {
            choice: Choice::Build,
            options: MietteHandlerOpts::default(),
            terminal: Terminal {
                width: None,
                color: None,
                unicode: false,
                hyperlinks: false,
                stdout_terminal: false,
                stderr_terminal: false,
                no_graphics: None,
                no_color: None,
            },
        }
    }

    /// Applies one argument.
    fn with(self, alloc: Global, asked: Argument<'_>) -> Result<Arguments, ProgramError>
        ensures { AreGiven (with_argument asked.entry (parsed_of self)) result }
    {
        match asked {
            Argument::Form(form) => self.with_form(form),
            Argument::Value(word, value) => self.with_value(alloc, word, value),
        }
    }

    /// Applies a form of the report. Logs are refused.
    fn with_form(mut self, form: OutputForm) -> Result<Arguments, ProgramError>
        ensures { AreGiven (table.with_form form (parsed_of self)) result }
    {
        match form {
            OutputForm::Graphical => self.options = self.options.force_graphical(true),
            OutputForm::Narrated => self.options = self.options.force_narrated(true),
            OutputForm::Brief => self.options = brief_options(self.options, BriefForm::Gcc),
            OutputForm::Github => self.options = brief_options(self.options, BriefForm::Github),
            OutputForm::Json => self.choice = Choice::Json,
            OutputForm::Debug => self.choice = Choice::Debug,
            OutputForm::Sarif | OutputForm::Lsp => return Err(ProgramError::Usage),
        }
        Ok(self)
    }

    /// Applies an argument with a value. For two arguments the value is any text.
    fn with_value(
        mut self,
        alloc: Global,
        word: &str,
        value: &str,
    ) -> Result<Arguments, ProgramError>
        ensures { AreGiven (table.with_value word.now value.now (parsed_of self)) result }
    {
        match word {
            "--footer" => {
                let footer = String::from_str(alloc, value)?;
                self.options = self.options.footer(footer);
            }
            "--no-graphics" => self.terminal.no_graphics = Some(String::from_str(alloc, value)?),
            _ => return self.with_read(alloc, word, value),
        }
        Ok(self)
    }

    /// Applies an argument whose value is a number, `yes`, `no` or a name.
    fn with_read(self, alloc: Global, word: &str, value: &str) -> Result<Arguments, ProgramError>
        ensures { AreGiven (table.with_read word.now value.now (parsed_of self)) result }
    {
        if let Some(number) = number(value) {
            return self.with_number(word, number);
        }
        match value {
            "yes" => self.with_answer(word, true),
            "no" => self.with_answer(word, false),
            _ => self.with_name(alloc, word, value),
        }
    }

    /// Applies an argument whose value is a number.
    fn with_number(mut self, word: &str, number: usize) -> Result<Arguments, ProgramError>
        ensures { AreGiven (table.with_number word.now number (parsed_of self)) result }
    {
        match word {
            "--width" => self.options = self.options.width(number),
            "--context" => self.options = self.options.context_lines(number),
            "--term-width" => self.terminal.width = Some(number),
            _ => return self.with_count(word, number),
        }
        Ok(self)
    }

    /// Applies an argument whose value is a positive number.
    fn with_count(mut self, word: &str, count: usize) -> Result<Arguments, ProgramError>
        ensures { AreGiven (table.with_count word.now count (parsed_of self)) result }
    {
        if count == 0 {
            return Err(ProgramError::Usage);
        }
        self.options = match word {
            "--tab" => self.options.tab_width(count),
            "--label-lines" => self.options.label_lines(count),
            "--line-columns" => self.options.line_columns(count),
            _ => return Err(ProgramError::Usage),
        };
        Ok(self)
    }

    /// Applies an argument whose value is `yes` or `no`.
    fn with_answer(mut self, word: &str, yes: bool) -> Result<Arguments, ProgramError>
        ensures { AreGiven (table.with_answer word.now yes (parsed_of self)) result }
    {
        self.options = match word {
            "--unicode" => self.options.unicode(yes),
            "--color" => self.options.color(yes),
            "--links" => self.options.terminal_links(yes),
            "--chain" if yes => self.options.with_cause_chain(),
            "--chain" => self.options.without_cause_chain(),
            "--nested" if yes => self.options.show_related_errors_as_nested(),
            "--nested" => self.options.show_related_errors_as_siblings(),
            "--wrap" => self.options.wrap_lines(yes),
            "--break" => self.options.break_words(yes),
            "--hyphens" if yes => self.options.word_splitter(WordSplitter::HyphenSplitter),
            "--hyphens" => self.options.word_splitter(WordSplitter::NoHyphenation),
            "--end-labels" => self.options.end_labels(yes),
            "--fit-lines" => self.options.fit_lines(yes),
            _ => return self.with_terminal(word, yes),
        };
        Ok(self)
    }

    /// Applies an argument about the terminal whose value is `yes` or `no`.
    fn with_terminal(mut self, word: &str, yes: bool) -> Result<Arguments, ProgramError>
        ensures { AreGiven (table.with_terminal word.now yes (parsed_of self)) result }
    {
        match word {
            "--term-unicode" => self.terminal.unicode = yes,
            "--term-links" => self.terminal.hyperlinks = yes,
            _ => return Err(ProgramError::Usage),
        }
        Ok(self)
    }

    /// Applies an argument whose value is a name.
    fn with_name(self, alloc: Global, word: &str, name: &str) -> Result<Arguments, ProgramError>
        ensures { AreGiven (table.with_name word.now name.now (parsed_of self)) result }
    {
        let named = read_named(alloc, word, name)?;
        Ok(self.with_named(named))
    }

    /// Applies the meaning of the name.
    fn with_named(mut self, named: NamedValue) -> Arguments
        ensures { parsed_of result ≡ with_named named (parsed_of self) }
    {
        match named {
            NamedValue::Theme(theme) => self.options = self.options.graphical_theme(theme),
            NamedValue::Rgb(colors) => self.options = self.options.rgb_colors(colors),
            NamedValue::Separator(separator) => self.options = self
                .options
                .word_separator(separator),
            NamedValue::Highlighter(highlighter) => {
                self.options = self.options.with_syntax_highlighting(highlighter)
            }
            NamedValue::Color(color) => self.terminal.color = color,
        }
        self
    }
}
