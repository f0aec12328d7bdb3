//! The output forms of a session.

ghost use Rattle.std.specs.Prelude.{◌≡◌};
ghost use Rattle.miette.specs.rules.Forms.{after_it, closing, report_form_named, front, has_summary};

/// The output form of a session's reports, and what separates them.
#[derive(Clone, Copy, Debug, PartialEq, Eq)]
pub enum Form {
    /// The form that options and terminal choose, graphical by default. A blank line separates reports.
    Pictures,
    /// Narrated reports, separated by a blank line.
    Narrated,
    /// Brief reports: one line for each part, as compilers print them. Nothing separates reports.
    Brief,
    /// One JSON array, with each report on its own line.
    JsonArray,
    /// One line of JSON for each report.
    JsonRows,
}

impl Form {
    /// Returns the form with this name: `pictures`, `narrated`, `brief`, `json` or `json-rows`.
    pub fn named(name: &str) -> Option<Form>
        ensures { result ≡ report_form_named name.now }
    {
        if name == "pictures" {
            Some(Form::Pictures)
        } else if name == "narrated" {
            Some(Form::Narrated)
        } else if name == "brief" {
            Some(Form::Brief)
        } else if name == "json" {
            Some(Form::JsonArray)
        } else if name == "json-rows" {
            Some(Form::JsonRows)
        } else {
            None
        }
    }

    // The text before a report. `is_begun` says whether a report was written before it.
    pub(crate) fn front(self, is_begun: bool) -> &'static str
        ensures { result.now ≡ front self is_begun }
    {
        match (self, is_begun) {
            (Form::Pictures | Form::Narrated, true) => "\n",
            (Form::JsonArray, true) => ",\n",
            (Form::JsonArray, false) => "[",
            (Form::Pictures | Form::Narrated, false) | (Form::Brief | Form::JsonRows, _) => "",
        }
    }

    // The text after each report.
    pub(crate) fn after_it(self) -> &'static str
        ensures { result.now ≡ after_it self }
    {
        match self {
            Form::JsonRows => "\n",
            Form::Pictures | Form::Narrated | Form::Brief | Form::JsonArray => "",
        }
    }

    // The text after the last report. `is_begun` says whether a report was written.
    pub(crate) fn closing(self, is_begun: bool) -> &'static str
        ensures { result.now ≡ closing self is_begun }
    {
        match (self, is_begun) {
            (Form::JsonArray, true) => "]\n",
            (Form::JsonArray, false) => "[]\n",
            (Form::Pictures | Form::Narrated | Form::Brief | Form::JsonRows, _) => "",
        }
    }

    // Whether the form allows a summary line.
    pub(crate) fn has_summary(self) -> bool
        ensures { result ≡ has_summary self }
    {
        match self {
            Form::Pictures | Form::Narrated | Form::Brief => true,
            Form::JsonArray | Form::JsonRows => false,
        }
    }
}
